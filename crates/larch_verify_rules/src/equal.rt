ghost use Rattle.std.specs.Prelude.{◌≡◌, ◌<◌, length, IfOk, IfSome, OnOk};
ghost use Rattle.std.specs.Option.{option_map};
ghost use Rattle.larch_verify_meaning.specs.Rules.{equal_says, stated_equal, equality_sides};
ghost use Rattle.larch_verify_pool.specs.Pooled.{tree_in, Grows};
ghost use Rattle.larch_verify_history.specs.Past.{IsPast, IsEquated, equated_in, history_of};

use larch_base::Memory;
use larch_verify_history::{Context, Equated};
use larch_verify_parts::{equality_in, equation_of, truth_in};
use larch_verify_pool::{Pool, at};
use std::alloc::Global;

/// An equation that a line states as a term that is true.
pub fn judge_equal(
    alloc: Global,
    pool: &mut Pool,
    context: &Context<'_>,
    line: u64,
) -> Result<Option<Equated>, Memory>
    requires { IsPast context.now.theory.now pool.old context.now.past.now }
    ensures within { IfOk result (λ o. IfSome o (IsEquated pool.new)) }
    ensures says { IfOk result (λ o. option_map (equated_in pool.new) o
        ≡ equal_says (history_of pool.old context.now.past.now) line) }
    ensures grows { OnOk result (Grows pool.old pool.new) }
{
    let Some(sides) = equation_of(context.past, line) else {
        return Ok(None);
    };
    let stated = equal_sides(alloc, pool, sides)?;
    Ok(stated)
}

// The arguments of the left side, if the equation says that they are equal.
fn equal_sides(alloc: Global, pool: &mut Pool, sides: Equated) -> Result<Option<Equated>, Memory>
    requires { IsEquated pool.old sides }
    ensures within { IfOk result (λ o. IfSome o (IsEquated pool.new)) }
    ensures says { IfOk result (λ o. option_map (equated_in pool.new) o ≡ stated_equal (equated_in pool.old sides)) }
    ensures grows { OnOk result (Grows pool.old pool.new) }
{
    let Some(left) = at(pool, sides.left, &[1]) else {
        return Ok(None);
    };
    let Some(right) = at(pool, sides.left, &[2]) else {
        return Ok(None);
    };
    let stated = equal_terms(alloc, pool, sides, left, right)?;
    Ok(stated)
}

// The terms of which an equation says that their equality is true.
fn equal_terms(
    alloc: Global,
    pool: &mut Pool,
    sides: Equated,
    left: u32,
    right: u32,
) -> Result<Option<Equated>, Memory>
    requires sides { IsEquated pool.old sides }
    requires left { left < length pool.old.trees }
    requires right { right < length pool.old.trees }
    ensures within { IfOk result (λ o. IfSome o (IsEquated pool.new)) }
    ensures says { IfOk result (λ o. option_map (equated_in pool.new) o
        ≡ equality_sides (equated_in pool.old sides) (tree_in pool.old.trees left) (tree_in pool.old.trees right)) }
    ensures grows { OnOk result (Grows pool.old pool.new) }
{
    let equality = equality_in(alloc, pool, left, right)?;
    let truth = truth_in(alloc, pool)?;
    if !pool.same(sides.left, equality) {
        return Ok(None);
    }
    if !pool.same(sides.right, truth) {
        return Ok(None);
    }
    Ok(Some(Equated { left, right }))
}
