ghost use Rattle.std.specs.Prelude.{◌≡◌, option_map, IfOk};
ghost use Rattle.larch_prove_plans.specs.Planning.{plan_of};
ghost use Rattle.larch_prove_meaning.specs.Plans.{closed_by, implication_of, implication_plan, two_arguments};
ghost use Rattle.larch_term.specs.BuiltIn.{bool_sort, built_in};
ghost use Rattle.larch_term.specs.Equality.{same_operator};

use crate::closing::{closed_by, closing, constants_of};
use crate::shapes::pair_by;
use crate::subgoals::Plan;
use crate::supposing::{only, supposing};
use crate::terms::truth;
use larch_base::{Memory, Name};
use larch_term::{BuiltIn, Operator, Term, bool_sort};
use std::alloc::Global;

// Of an implication: its premise, closed by new constants, is supposed, and its conclusion is the subgoal.
pub(crate) fn implication(
    alloc: Global,
    taken: &[Name],
    goal: &Term,
) -> Result<Option<Plan>, Memory>
    ensures { IfOk result (λ made. made ≡ option_map plan_of (implication_plan taken.now goal.now)) }
{
    let sort = bool_sort(alloc)?;
    let implies = BuiltIn::Implies.operator(alloc, &sort)?;
    let Some(pair) = pair_by(goal, &implies) else {
        return Ok(None);
    };
    let plan = implication_of(alloc, taken, goal, pair.left, pair.right)?;
    Ok(Some(plan))
}

fn implication_of(
    alloc: Global,
    taken: &[Name],
    goal: &Term,
    premise: &Term,
    conclusion: &Term,
) -> Result<Plan, Memory>
    ensures { IfOk result (λ made. made ≡ plan_of (implication_of taken.now goal.now (premise.now, conclusion.now))) }
{
    let constants = constants_of(alloc, taken, goal, premise)?;
    let by = closing(alloc, premise, constants.as_slice())?;
    let truth = truth(alloc)?;
    let subgoal = supposing(alloc, &by, premise, truth, conclusion)?;
    let subgoals = only(alloc, subgoal)?;
    Ok(Plan {
        constants,
        subgoals,
    })
}

/// An implication with constants in the places of its premise's variables, in order. None of another term.
pub fn closed_implication(
    alloc: Global,
    goal: &Term,
    constants: &[Operator],
) -> Result<Option<Term>, Memory>
    ensures { IfOk result (λ t. t ≡ option_map (λ p. closed_by p.0 constants.now goal.now)
        (two_arguments (same_operator (built_in BuiltIn.Implies bool_sort)) goal.now)) }
{
    let sort = bool_sort(alloc)?;
    let implies = BuiltIn::Implies.operator(alloc, &sort)?;
    let Some(pair) = pair_by(goal, &implies) else {
        return Ok(None);
    };
    let closed = closed_by(alloc, pair.left, constants, goal)?;
    Ok(Some(closed))
}
