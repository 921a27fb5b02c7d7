ghost use Rattle.std.specs.Prelude.{◌≡◌, IfOk, IfSome, OnOk};
ghost use Rattle.std.specs.Option.{option_map};
ghost use Rattle.larch_verify_meaning.specs.Context.{find_symbol};
ghost use Rattle.larch_verify_meaning.specs.Rules.{refl_says};
ghost use Rattle.larch_verify_pool.specs.Pooled.{Grows};
ghost use Rattle.larch_verify_history.specs.Past.{IsPast, IsEquated, equated_in, history_of};

use larch_base::Memory;
use larch_certificate::Coded;
use larch_verify_decoding::decode;
use larch_verify_history::{Context, Equated};
use larch_verify_pool::Pool;
use std::alloc::Global;

/// A term equals itself.
pub fn judge_refl(
    alloc: Global,
    pool: &mut Pool,
    context: &Context<'_>,
    term: &Coded,
) -> Result<Option<Equated>, Memory>
    requires { IsPast context.now.theory.now pool.old context.now.past.now }
    ensures within { IfOk result (λ o. IfSome o (IsEquated pool.new)) }
    ensures says { IfOk result (λ o. option_map (equated_in pool.new) o
        ≡ refl_says (find_symbol context.now.theory.now (history_of pool.old context.now.past.now)) term.now) }
    ensures grows { OnOk result (Grows pool.old pool.new) }
{
    let number = decode(alloc, pool, context, term)?;
    let Some(number) = number else {
        return Ok(None);
    };
    Ok(Some(Equated {
        left: number,
        right: number,
    }))
}
