ghost use Rattle.std.specs.Prelude.{◌≡◌, ◌∷◌, [], map, IfOk};
ghost use Rattle.larch_prove_plans.specs.Planning.{plan_of, subgoal_of};
ghost use Rattle.larch_prove_meaning.specs.Plans.{cases_plan, fails, holds, shared_subgoal};
ghost use Rattle.larch_term.specs.Substitution.{instance_of};

use crate::closing::{closing, constants_of};
use crate::subgoals::{Plan, Subgoal, Subgoals};
use crate::supposing::supposing;
use crate::terms::{falsity, truth};
use larch_base::{Memory, Name, Sequence};
use larch_term::{Substitution, Term};
use std::alloc::Global;

// By cases: a formula, closed by new constants, is true in a first subgoal and false in a second.
pub(crate) fn cases(
    alloc: Global,
    taken: &[Name],
    goal: &Term,
    formula: &Term,
) -> Result<Plan, Memory>
    ensures { IfOk result (λ made. made ≡ plan_of (cases_plan taken.now goal.now formula.now)) }
{
    let constants = constants_of(alloc, taken, goal, formula)?;
    let by = closing(alloc, formula, constants.as_slice())?;
    let subgoals = both_cases(alloc, &by, formula, goal)?;
    Ok(Plan {
        constants,
        subgoals,
    })
}

fn both_cases(
    alloc: Global,
    by: &Substitution,
    formula: &Term,
    goal: &Term,
) -> Result<Subgoals, Memory>
    ensures { IfOk result (λ ss. ss ≡ map subgoal_of
        (shared_subgoal (holds (instance_of by.now formula.now) ∷ []) (instance_of by.now goal.now)
        ∷ shared_subgoal (fails (instance_of by.now formula.now) ∷ []) (instance_of by.now goal.now) ∷ [])) }
{
    let truth = truth(alloc)?;
    let first = supposing(alloc, by, formula, truth, goal)?;
    let falsity = falsity(alloc)?;
    let second = supposing(alloc, by, formula, falsity, goal)?;
    let subgoals = two(alloc, first, second)?;
    Ok(subgoals)
}

fn two(alloc: Global, first: Subgoal, second: Subgoal) -> Result<Subgoals, Memory>
    ensures { IfOk result (λ ss. ss ≡ first ∷ second ∷ []) }
{
    let mut subgoals = Sequence::new(alloc);
    subgoals.push(first)?;
    subgoals.push(second)?;
    Ok(subgoals)
}
