ghost use Rattle.std.specs.Prelude.{◌≡◌, ◌+◌, ◌∷◌, [], map, IfOk};
ghost use Rattle.larch_base.specs.Answering.{Answers};
ghost use Rattle.larch_calculus.specs.Formula.{formula};
ghost use Rattle.larch_prove_plans.specs.Observations.{observation_of};
ghost use Rattle.larch_prove_plans.specs.Planning.{planned_by, subgoal_of, cause};
ghost use Rattle.larch_prove_meaning.specs.NewNames.{new_constants};
ghost use Rattle.larch_prove_meaning.specs.Plans.{a_variable, arguments_around, other_sorts, shown};
ghost use Rattle.larch_prove_meaning.specs.Plans.{partition_plan, partition_subgoals};
ghost use Rattle.larch_term.specs.Statement.{statement_zero};
ghost use Rattle.larch_term.specs.Tree.{forest_of};

use crate::clauses::observers;
use crate::closing::taken_beside;
use crate::induction::a_variable;
use crate::new_names::{names_before, new_constants};
use crate::observations::{Observed, observations_of};
use crate::refusal::PlanRefusal;
use crate::shapes::equality_in;
use crate::subgoals::{Plan, Subgoal, Subgoals};
use crate::terms::{constant, formula};
use larch_base::{Memory, Name, Sequence};
use larch_term::{Operator, Sort, Statement, Term, Terms, Variables, copy, sort_of};
use std::alloc::Global;

// An equality, by the first clause that partitions the sort of its sides.
pub(crate) fn partition(
    alloc: Global,
    statements: &[Statement],
    taken: &[Name],
    goal: &Term,
) -> Result<Plan, PlanRefusal>
    ensures { Answers cause result (planned_by (partition_plan
        (record { clauses = statement_zero ∷ statements.now; taken = taken.now }) goal.now)) }
{
    let Some(pair) = equality_in(alloc, goal)? else {
        return Err(PlanRefusal::Shape);
    };
    let sort = sort_of(pair.left);
    let Some(observers) = observers(statements, sort) else {
        return Err(PlanRefusal::Partitioned);
    };
    let taken = taken_beside(alloc, taken, goal)?;
    let observations = observations_of(alloc, sort, observers.as_slice())?;
    let subgoals = partition_subgoals(
        alloc,
        taken,
        pair.left,
        pair.right,
        observations.as_slice(),
    )?;
    Ok(Plan {
        constants: Sequence::new(alloc),
        subgoals,
    })
}

// One subgoal for each observation, that it shows the same of both terms.
fn partition_subgoals(
    alloc: Global,
    names: Vec<Name>,
    left: &Term,
    right: &Term,
    observations: &[Observed],
) -> Result<Subgoals, Memory>
    ensures { IfOk result (λ ss. ss ≡ map subgoal_of
        (partition_subgoals names.items left.now right.now (map observation_of observations.now))) }
{
    let mut taken = names;
    let mut subgoals = Sequence::new(alloc);
    for observation in observations {
        let subgoal = partition_subgoal(alloc, taken.as_slice(), left, right, observation)?;
        taken = names_before(alloc, subgoal.constants.as_slice(), taken)?;
        subgoals.push(subgoal)?;
    }
    Ok(subgoals)
}

fn partition_subgoal(
    alloc: Global,
    taken: &[Name],
    left: &Term,
    right: &Term,
    observation: &Observed,
) -> Result<Subgoal, Memory>
    ensures constants { IfOk result (λ s. s.constants ≡ new_constants taken.now
        (map a_variable (other_sorts (observation.now.index + 1) 1 observation.now.observer.domain))) }
    ensures hypotheses { IfOk result (λ s. s.hypotheses ≡ []) }
    ensures goal { IfOk result (λ s. s.goal ≡ formula (shown (observation_of observation.now) s.constants left.now)
        (shown (observation_of observation.now) s.constants right.now)) }
{
    let variables = other_variables(alloc, observation.index, observation.observer.domain())?;
    let constants = new_constants(alloc, taken, variables.as_slice())?;
    let left = shown(alloc, observation, constants.as_slice(), left)?;
    let right = shown(alloc, observation, constants.as_slice(), right)?;
    let goal = formula(alloc, left, right)?;
    Ok(Subgoal {
        constants,
        hypotheses: Sequence::new(alloc),
        goal,
    })
}

// A variable named a for each place but the one with an index.
fn other_variables(alloc: Global, index: usize, sorts: &[Sort]) -> Result<Variables, Memory>
    ensures { IfOk result (λ vs. vs ≡ map a_variable (other_sorts (index + 1) 1 sorts.now)) }
{
    let mut variables = Sequence::new(alloc);
    for i in 0..sorts.len() {
        if i == index {
            continue;
        }
        let variable = a_variable(alloc, &sorts[i])?;
        variables.push(variable)?;
    }
    Ok(variables)
}

// What an observer shows of a term, with constants for the other arguments.
fn shown(
    alloc: Global,
    observation: &Observed,
    constants: &[Operator],
    term: &Term,
) -> Result<Term, Memory>
    ensures { IfOk result (λ t. t ≡ shown (observation_of observation.now) constants.now term.now) }
{
    let arguments = arguments_around(alloc, observation, constants, term)?;
    let observer = observation.observer.copy()?;
    Ok(Term::app(observer, Terms::from_vec(arguments)))
}

#[tactic(auto, using(crate::proofs::Steps::around_here, crate::proofs::Steps::around_beside, crate::proofs::Steps::around_done, crate::proofs::Steps::around_short))]
fn arguments_around(
    alloc: Global,
    observation: &Observed,
    constants: &[Operator],
    term: &Term,
) -> Result<Vec<Term>, Memory>
    ensures { IfOk result (λ ts. forest_of ts.items ≡ arguments_around (observation.now.index + 1) term.now 1
        observation.now.observer.domain constants.now) }
{
    let count = observation.observer.domain().len();
    let mut arguments = Vec::with_capacity(alloc, count)?;
    let mut next = 0;
    for i in 0..count {
        if i == observation.index {
            let argument = copy(alloc, term)?;
            arguments.push(argument)?;
            continue;
        }
        if next >= constants.len() {
            return Ok(arguments);
        }
        let argument = constant(alloc, &constants[next])?;
        arguments.push(argument)?;
        next += 1;
    }
    Ok(arguments)
}
