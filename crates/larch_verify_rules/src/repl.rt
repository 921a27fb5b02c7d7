ghost use Rattle.std.specs.Prelude.{◌≡◌, IfOk, IfSome, OnOk};
ghost use Rattle.std.specs.Option.{option_map};
ghost use Rattle.larch_verify_meaning.specs.Rules.{repl_says, replace_right};
ghost use Rattle.larch_verify_pool.specs.Pooled.{Grows};
ghost use Rattle.larch_verify_history.specs.Past.{IsPast, IsEquated, equated_in, history_of};

use larch_base::Memory;
use larch_verify_history::{Context, Equated};
use larch_verify_parts::equation_of;
use larch_verify_pool::{Pool, at, replace_at};
use std::alloc::Global;

/// The equation of a line whose right side is changed at a place by the equation of another line.
pub fn judge_repl(
    alloc: Global,
    pool: &mut Pool,
    context: &Context<'_>,
    line: u64,
    place: &[u64],
    by: u64,
) -> Result<Option<Equated>, Memory>
    requires { IsPast context.now.theory.now pool.old context.now.past.now }
    ensures within { IfOk result (λ o. IfSome o (IsEquated pool.new)) }
    ensures says { IfOk result (λ o. option_map (equated_in pool.new) o
        ≡ repl_says (history_of pool.old context.now.past.now) line place.now by) }
    ensures grows { OnOk result (Grows pool.old pool.new) }
{
    let Some(changed) = equation_of(context.past, line) else {
        return Ok(None);
    };
    let Some(by) = equation_of(context.past, by) else {
        return Ok(None);
    };
    let stated = replace_side(alloc, pool, changed, place, by)?;
    Ok(stated)
}

// The first equation with the second one's right side at a place of its own right side, where the left side stands.
fn replace_side(
    alloc: Global,
    pool: &mut Pool,
    changed: Equated,
    place: &[u64],
    by: Equated,
) -> Result<Option<Equated>, Memory>
    requires changed { IsEquated pool.old changed }
    requires by { IsEquated pool.old by }
    ensures within { IfOk result (λ o. IfSome o (IsEquated pool.new)) }
    ensures says { IfOk result (λ o. option_map (equated_in pool.new) o
        ≡ replace_right place.now (equated_in pool.old changed) (equated_in pool.old by)) }
    ensures grows { OnOk result (Grows pool.old pool.new) }
{
    let Some(there) = at(pool, changed.right, place) else {
        return Ok(None);
    };
    if !pool.same(there, by.left) {
        return Ok(None);
    }
    let right = replace_at(alloc, pool, changed.right, place, by.right)?;
    let Some(right) = right else {
        return Ok(None);
    };
    Ok(Some(Equated {
        left: changed.left,
        right,
    }))
}
