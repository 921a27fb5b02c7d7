ghost use Rattle.std.specs.Prelude.{◌≡◌, ◌∷◌, [], IfOk};
ghost use Rattle.larch_calculus.specs.Formula.{falsity};
ghost use Rattle.larch_prove_plans.specs.Planning.{plan_of, subgoal_of};
ghost use Rattle.larch_prove_meaning.specs.Plans.{contradiction_plan, fails, shared_subgoal};
ghost use Rattle.larch_term.specs.Substitution.{instance_of};

use crate::closing::{closing, constants_of};
use crate::subgoals::{Plan, Subgoal};
use crate::supposing::{only, supposing};
use crate::terms::falsity;
use larch_base::{Memory, Name};
use larch_term::{Substitution, Term};
use std::alloc::Global;

// By contradiction: the goal, closed by new constants, is supposed to be false, and false is the subgoal.
pub(crate) fn contradiction(alloc: Global, taken: &[Name], goal: &Term) -> Result<Plan, Memory>
    ensures { IfOk result (λ made. made ≡ plan_of (contradiction_plan taken.now goal.now)) }
{
    let constants = constants_of(alloc, taken, goal, goal)?;
    let by = closing(alloc, goal, constants.as_slice())?;
    let subgoal = denial_subgoal(alloc, &by, goal)?;
    let subgoals = only(alloc, subgoal)?;
    Ok(Plan {
        constants,
        subgoals,
    })
}

fn denial_subgoal(alloc: Global, by: &Substitution, goal: &Term) -> Result<Subgoal, Memory>
    ensures { IfOk result (λ s. s ≡ subgoal_of (shared_subgoal (fails (instance_of by.now goal.now) ∷ []) falsity)) }
{
    let value = falsity(alloc)?;
    let aim = falsity(alloc)?;
    let subgoal = supposing(alloc, by, goal, value, &aim)?;
    Ok(subgoal)
}
