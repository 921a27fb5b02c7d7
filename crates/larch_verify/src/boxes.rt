ghost use Rattle.std.specs.Prelude.{◌≡◌, ◌+◌, if◌then◌else◌, IsTrue, IfOk, IfSome, OnOk, Some, None, All, length, map};
ghost use Rattle.std.specs.Option.{option_map};
ghost use Rattle.larch_verify_meaning.specs.Context.{find_symbol};
ghost use Rattle.larch_verify_meaning.specs.Decoding.{each, decode_equation};
ghost use Rattle.larch_verify_meaning.specs.Run.{box_opens};
ghost use Rattle.larch_verify_pool.specs.Pooled.{Grows};
ghost use Rattle.larch_verify_history.specs.Past.{IsPast, IsEquated, equated_in, history_of};

use larch_base::{Memory, Sequence};
use larch_certificate::{BoxPart, BoxParts, CodedEquation};
use larch_term::Theory;
use larch_verify_box_rules::from_verify_decoding::decode_equation;
use larch_verify_history::{Context, EquatedList, KeptHistory};
use larch_verify_pool::Pool;
use std::alloc::Global;

// A line opens a box. What the box makes may stand in its own hypotheses. `false` where one of these means nothing.
pub(crate) fn open_box(
    alloc: Global,
    pool: &mut Pool,
    theory: &Theory,
    past: &mut KeptHistory,
    parts: &[BoxPart],
    hypotheses: &[CodedEquation],
) -> Result<bool, Memory>
    requires { IsPast theory.now pool.old past.old }
    ensures past { IfOk result (λ b. IsTrue b → IsPast theory.now pool.new past.new) }
    ensures opens { IfOk result (λ b. box_opens theory.now (history_of pool.old past.old)
        (length past.old.places.items + 1) parts.now hypotheses.now
        ≡ (if b then Some (history_of pool.new past.new) else None)) }
    ensures count { IfOk result (λ b. IsTrue b → length past.new.places.items ≡ length past.old.places.items + 1) }
    ensures grows { OnOk result (Grows pool.old pool.new) }
{
    let parts = copy_parts(alloc, parts)?;
    past.begin_box(alloc, parts)?;
    let context = Context { theory, past };
    let supposed = decode_equations(alloc, pool, &context, hypotheses)?;
    let Some(supposed) = supposed else {
        return Ok(false);
    };
    past.suppose(supposed)?;
    Ok(true)
}

// The same parts once more.
fn copy_parts(alloc: Global, parts: &[BoxPart]) -> Result<BoxParts, Memory>
    ensures { IfOk result (λ ps. ps ≡ parts.now) }
{
    let mut copied = Vec::with_capacity(alloc, parts.len())?;
    for part in parts {
        let sort = part.sort.copy()?;
        copied.push(BoxPart {
            sort,
            predicate: part.predicate,
        })?;
    }
    Ok(Sequence::from_vec(copied))
}

// The equations that coded ones mean, if each means one.
fn decode_equations(
    alloc: Global,
    pool: &mut Pool,
    context: &Context<'_>,
    equations: &[CodedEquation],
) -> Result<Option<EquatedList>, Memory>
    requires { IsPast context.now.theory.now pool.old context.now.past.now }
    ensures within { IfOk result (λ o. IfSome o (All (IsEquated pool.new))) }
    ensures says { IfOk result (λ o. option_map (map (equated_in pool.new)) o
        ≡ each (decode_equation (find_symbol context.now.theory.now
        (history_of pool.old context.now.past.now))) equations.now) }
    ensures grows { OnOk result (Grows pool.old pool.new) }
{
    let mut decoded = Vec::with_capacity(alloc, equations.len())?;
    for equation in equations {
        let sides = decode_equation(alloc, pool, context, equation)?;
        let Some(sides) = sides else {
            return Ok(None);
        };
        decoded.push(sides)?;
    }
    Ok(Some(Sequence::from_vec(decoded)))
}
