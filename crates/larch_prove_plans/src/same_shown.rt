ghost use Rattle.std.specs.Prelude.{◌≡◌, ◌+◌, ◌∷◌, [], map, IfOk};
ghost use Rattle.larch_calculus.specs.Formula.{constant, equality};
ghost use Rattle.larch_calculus.specs.Generation.{place_name};
ghost use Rattle.larch_calculus.specs.Observation.{arguments_with, observations, observer_term};
ghost use Rattle.larch_prove_plans.specs.ClauseGoals.{partition_goal, same_shown};
ghost use Rattle.larch_prove_plans.specs.Observations.{observation_of};
ghost use Rattle.larch_term.specs.Tree.{forest_of, var};

use crate::new_names::constant_named;
use crate::observations::{Observed, observations_of};
use crate::places::place_name;
use crate::subgoals::Subgoal;
use crate::terms::{constant, joined};
use larch_base::{Memory, Name, Sequence};
use larch_term::{BuiltIn, Operator, Operators, Sort, Statement, Statements, Term, Terms, copy};
use std::alloc::Global;

/// What has to be shown of a clause: that operators partition a sort. The subgoal's constants have these names, and the
/// operators show the same of both.
pub fn partition_goal(
    alloc: Global,
    first: &Name,
    second: &Name,
    sort: &Sort,
    operators: &[Operator],
) -> Result<Subgoal, Memory>
    ensures { IfOk result (λ s. s ≡ partition_goal first.now second.now sort.now operators.now) }
{
    let first = constant_named(alloc, first, sort)?;
    let second = constant_named(alloc, second, sort)?;
    let hypotheses = same_of_constants(alloc, sort, operators, &first, &second)?;
    let goal = equality(alloc, sort, &first, &second)?;
    let constants = both(alloc, first, second)?;
    Ok(Subgoal {
        constants,
        hypotheses,
        goal,
    })
}

fn both(alloc: Global, first: Operator, second: Operator) -> Result<Operators, Memory>
    ensures { IfOk result (λ fs. fs ≡ first ∷ second ∷ []) }
{
    let mut operators = Sequence::new(alloc);
    operators.push(first)?;
    operators.push(second)?;
    Ok(operators)
}

// That two constants are equal.
fn equality(alloc: Global, sort: &Sort, first: &Operator, second: &Operator) -> Result<Term, Memory>
    ensures { IfOk result (λ t. t ≡ equality sort.now (constant first.now) (constant second.now)) }
{
    let operator = BuiltIn::Equal.operator(alloc, sort)?;
    let left = constant(alloc, first)?;
    let right = constant(alloc, second)?;
    let term = joined(alloc, operator, left, right)?;
    Ok(term)
}

// The equations that the observers of a sort have for two constants.
fn same_of_constants(
    alloc: Global,
    sort: &Sort,
    operators: &[Operator],
    first: &Operator,
    second: &Operator,
) -> Result<Statements, Memory>
    ensures { IfOk result (λ hs. hs ≡ observations place_name sort.now operators.now (constant first.now)
        (constant second.now)) }
{
    let observations = observations_of(alloc, sort, operators)?;
    let left = constant(alloc, first)?;
    let right = constant(alloc, second)?;
    let equations = same_shown(alloc, observations.as_slice(), &left, &right)?;
    Ok(equations)
}

fn same_shown(
    alloc: Global,
    observations: &[Observed],
    left: &Term,
    right: &Term,
) -> Result<Statements, Memory>
    ensures { IfOk result (λ hs. hs ≡ map (same_shown left.now right.now) (map observation_of observations.now)) }
{
    let mut equations = Sequence::new(alloc);
    for observation in observations {
        let left = observer_term(alloc, observation, left)?;
        let right = observer_term(alloc, observation, right)?;
        equations.push(Statement::Equation(left, right))?;
    }
    Ok(equations)
}

// What an observer shows of a term, with variables named by their places for the other arguments.
fn observer_term(alloc: Global, observation: &Observed, term: &Term) -> Result<Term, Memory>
    ensures { IfOk result (λ t. t ≡ observer_term place_name (observation_of observation.now) term.now) }
{
    let arguments = arguments_with(alloc, observation, term)?;
    let observer = observation.observer.copy()?;
    Ok(Term::app(observer, Terms::from_vec(arguments)))
}

fn arguments_with(alloc: Global, observation: &Observed, term: &Term) -> Result<Vec<Term>, Memory>
    ensures { IfOk result (λ ts. forest_of ts.items ≡ arguments_with place_name (observation.now.index + 1) term.now 1
        observation.now.observer.domain) }
{
    let domain = observation.observer.domain();
    let mut arguments = Vec::with_capacity(alloc, domain.len())?;
    for index in 0..domain.len() {
        let argument = if index == observation.index {
            copy(alloc, term)?
        } else {
            place_variable(alloc, index + 1, &domain[index])?
        };
        arguments.push(argument)?;
    }
    Ok(arguments)
}

fn place_variable(alloc: Global, place: usize, sort: &Sort) -> Result<Term, Memory>
    ensures { IfOk result (λ t. t ≡ var (place_name place) sort.now) }
{
    let name = place_name(alloc, place)?;
    let sort = sort.copy()?;
    Ok(Term::var(name, sort))
}
