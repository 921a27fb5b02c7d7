ghost use Rattle.std.specs.Prelude.{◌≡◌, ◌<◌, IfOk, IfSome, OnOk, All, length, map};
ghost use Rattle.std.specs.Option.{option_map};
ghost use Rattle.larch_verify_meaning.specs.BoxRules.{cases_says, cases_of, common_result, only_left_side, supposes};
ghost use Rattle.larch_verify_pool.specs.Pooled.{Pooled, tree_in, Grows};
ghost use Rattle.larch_verify_history.specs.Past.{IsPast, IsBox, IsEquated, IsStated, box_in, equated_in, history_of, stated_in};
ghost use Rattle.larch_verify_box_rules.specs.Cases.{are_cases};

use crate::matching::same_equations;
use larch_base::Memory;
use larch_verify_history::{Context, Equated, KnownBox, Stated, same_stated};
use larch_verify_parts::{falsity_in, sides_of, truth_in};
use larch_verify_pool::Pool;
use std::alloc::Global;

/// The common result of two closed boxes, for one of which a formula without variables is true and for the other
/// false.
pub fn judge_cases(
    alloc: Global,
    pool: &mut Pool,
    context: &Context<'_>,
    first: u64,
    second: u64,
) -> Result<Option<Equated>, Memory>
    requires { IsPast context.now.theory.now pool.old context.now.past.now }
    ensures within { IfOk result (λ o. IfSome o (IsEquated pool.new)) }
    ensures says { IfOk result (λ o. option_map (equated_in pool.new) o
        ≡ cases_says (history_of pool.old context.now.past.now) first second) }
    ensures grows { OnOk result (Grows pool.old pool.new) }
{
    let Some((one, shown)) = context.past.closed_box(first) else {
        return Ok(None);
    };
    let Some((other, other_shown)) = context.past.closed_box(second) else {
        return Ok(None);
    };
    let made = cases_result(alloc, pool, one, shown, other, other_shown)?;
    Ok(made)
}

// What two boxes with their results show together.
fn cases_result(
    alloc: Global,
    pool: &mut Pool,
    one: &KnownBox,
    shown: &Stated,
    other: &KnownBox,
    other_shown: &Stated,
) -> Result<Option<Equated>, Memory>
    requires one { IsBox pool.old one.now }
    requires shown { IsStated pool.old shown.now }
    requires other { IsBox pool.old other.now }
    requires other_shown { IsStated pool.old other_shown.now }
    ensures within { IfOk result (λ o. IfSome o (IsEquated pool.new)) }
    ensures says { IfOk result (λ o. option_map (equated_in pool.new) o
        ≡ cases_of (box_in pool.old one.now, stated_in pool.old shown.now)
        (box_in pool.old other.now, stated_in pool.old other_shown.now)) }
    ensures grows { OnOk result (Grows pool.old pool.new) }
{
    let Some(formula) = only_left(one.hypotheses.as_slice()) else {
        return Ok(None);
    };
    let Some(sides) = sides_of(shown) else {
        return Ok(None);
    };
    if !same_stated(pool, shown, other_shown) {
        return Ok(None);
    }
    if !pool.is_ground(formula) {
        return Ok(None);
    }
    let are_cases = are_cases(alloc, pool, one, other, formula)?;
    if !are_cases {
        return Ok(None);
    }
    Ok(Some(sides))
}

// The left side of the only equation. It takes no memory.
fn only_left(equations: &[Equated]) -> Option<u32>
    ensures left { (p : Pooled) → option_map (tree_in p.trees) result
        ≡ only_left_side (map (equated_in p) equations.now) }
    ensures within { (p : Pooled) → All (IsEquated p) equations.now → IfSome result (λ n. n < length p.trees) }
{
    if equations.len() != 1 {
        return None;
    }
    Some(equations[0].left)
}

// Whether one box supposes alone that a formula is true, and the other that it is false.
fn are_cases(
    alloc: Global,
    pool: &mut Pool,
    one: &KnownBox,
    other: &KnownBox,
    formula: u32,
) -> Result<bool, Memory>
    requires one { IsBox pool.old one.now }
    requires other { IsBox pool.old other.now }
    requires formula { formula < length pool.old.trees }
    ensures cases { IfOk result (λ b. b ≡ are_cases (box_in pool.old one.now) (box_in pool.old other.now)
        (tree_in pool.old.trees formula)) }
    ensures grows { OnOk result (Grows pool.old pool.new) }
{
    let truth = truth_in(alloc, pool)?;
    let falsity = falsity_in(alloc, pool)?;
    Ok(supposes(pool, one, formula, truth) && supposes(pool, other, formula, falsity))
}

// Whether a box has no parts and the only hypothesis that a formula has a truth value.
fn supposes(pool: &Pool, known: &KnownBox, formula: u32, value: u32) -> bool
    requires known { IsBox pool.now known.now }
    requires formula { formula < length pool.now.trees }
    requires value { value < length pool.now.trees }
    ensures { result ≡ supposes (box_in pool.now known.now) (tree_in pool.now.trees formula)
        (tree_in pool.now.trees value) }
{
    let sides = Equated {
        left: formula,
        right: value,
    };
    known.parts.as_slice().is_empty() && same_equations(pool, known.hypotheses.as_slice(), &[sides])
}
