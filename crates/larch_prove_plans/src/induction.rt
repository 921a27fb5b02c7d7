ghost use Rattle.std.specs.Prelude.{◌≡◌, ◌∷◌, ◌++◌, bytes_eq, find, if◌then◌else◌, map, option_map, IfOk, OnOk};
ghost use Rattle.larch_base.specs.Answering.{Answers};
ghost use Rattle.larch_calculus.specs.Formula.{constant};
ghost use Rattle.larch_calculus.specs.Generation.{constant_terms, only};
ghost use Rattle.larch_prove_plans.specs.Planning.{planned_by, equate, subgoal_of, cause};
ghost use Rattle.larch_prove_meaning.specs.NewNames.{new_constants};
ghost use Rattle.larch_prove_meaning.specs.Plans.{a_variable, argument_variables, goal_at, holds, supposed_of};
ghost use Rattle.larch_prove_meaning.specs.Plans.{induction_plan, induction_subgoals};
ghost use Rattle.larch_term.specs.Statement.{statement_zero};
ghost use Rattle.larch_term.specs.Tree.{app};
ghost use Rattle.larch_term.specs.Variable.{variables_of};

use crate::clauses::generators;
use crate::closing::taken_beside;
use crate::new_names::{names_before, new_constants};
use crate::refusal::PlanRefusal;
use crate::subgoals::{Plan, Subgoal, Subgoals};
use crate::terms::{constant, truth};
use larch_base::{Memory, Name, Sequence};
use larch_term::{
    Operator, Sort, Statement, Statements, Substitution, Term, Terms, Variable, Variables,
    substitute, variables,
};
use std::alloc::Global;

// Induction on the first variable of a name, by the first clause that generates its sort.
pub(crate) fn induction(
    alloc: Global,
    statements: &[Statement],
    taken: &[Name],
    goal: &Term,
    name: &Name,
) -> Result<Plan, PlanRefusal>
    ensures { Answers cause result (planned_by (induction_plan
        (record { clauses = statement_zero ∷ statements.now; taken = taken.now }) goal.now name.now)) }
{
    let variables = variables(alloc, goal)?;
    let Some(variable) = variable_named(variables.as_slice(), name) else {
        return Err(PlanRefusal::Variable);
    };
    let Some(generators) = generators(alloc, statements, &variable.sort)? else {
        return Err(PlanRefusal::Generated);
    };
    let taken = taken_beside(alloc, taken, goal)?;
    let subgoals = induction_subgoals(alloc, taken, variable, goal, generators.as_slice())?;
    Ok(Plan {
        constants: Sequence::new(alloc),
        subgoals,
    })
}

/// The variable of a term that induction goes by: the first that has the name.
pub fn induction_variable(
    alloc: Global,
    goal: &Term,
    name: &Name,
) -> Result<Option<Variable>, Memory>
    ensures { IfOk result (λ v. v ≡ find (λ v. bytes_eq v.name name.now) (variables_of goal.now)) }
{
    let variables = variables(alloc, goal)?;
    let Some(variable) = variable_named(variables.as_slice(), name) else {
        return Ok(None);
    };
    let name = variable.name.copy()?;
    let sort = variable.sort.copy()?;
    Ok(Some(Variable { name, sort }))
}

// The first variable of a name.
fn variable_named<'a>(variables: &'a [Variable], name: &Name) -> Option<&'a Variable>
    ensures { option_map (λ v. v.now) result ≡ find (λ v. bytes_eq v.name name.now) variables.now }
{
    variables.iter().find(|variable| variable.name == *name)
}

// One subgoal for each generator, each with constants that are new beside those before.
fn induction_subgoals(
    alloc: Global,
    names: Vec<Name>,
    variable: &Variable,
    goal: &Term,
    generators: &[Operator],
) -> Result<Subgoals, Memory>
    ensures { IfOk result (λ ss. ss ≡ map subgoal_of
        (induction_subgoals names.items variable.now goal.now generators.now)) }
{
    let mut taken = names;
    let mut subgoals = Sequence::new(alloc);
    for generator in generators {
        let subgoal = induction_subgoal(alloc, taken.as_slice(), variable, goal, generator)?;
        taken = names_before(alloc, subgoal.constants.as_slice(), taken)?;
        subgoals.push(subgoal)?;
    }
    Ok(subgoals)
}

fn induction_subgoal(
    alloc: Global,
    taken: &[Name],
    variable: &Variable,
    goal: &Term,
    generator: &Operator,
) -> Result<Subgoal, Memory>
    ensures constants { IfOk result (λ s. s.constants
        ≡ new_constants taken.now (argument_variables variable.now generator.now.domain)) }
    ensures hypotheses { IfOk result (λ s. s.hypotheses ≡ map equate (supposed_of variable.now goal.now s.constants)) }
    ensures goal { IfOk result (λ s. s.goal
        ≡ goal_at variable.now goal.now (app generator.now (constant_terms s.constants))) }
{
    let variables = argument_variables(alloc, variable, generator.domain())?;
    let constants = new_constants(alloc, taken, variables.as_slice())?;
    let hypotheses = supposed_of(alloc, variable, goal, constants.as_slice())?;
    let made = made_of(alloc, generator, constants.as_slice())?;
    let goal = goal_at(alloc, variable, goal, made)?;
    Ok(Subgoal {
        constants,
        hypotheses,
        goal,
    })
}

// What a generator's constants are named after.
fn argument_variables(
    alloc: Global,
    variable: &Variable,
    sorts: &[Sort],
) -> Result<Variables, Memory>
    ensures { IfOk result (λ vs. vs ≡ argument_variables variable.now sorts.now) }
{
    let mut variables = Sequence::new(alloc);
    for sort in sorts {
        let named = argument_variable(alloc, variable, sort)?;
        variables.push(named)?;
    }
    Ok(variables)
}

// The variable itself at its sort, and a at others.
fn argument_variable(alloc: Global, variable: &Variable, sort: &Sort) -> Result<Variable, Memory>
    ensures { IfOk result (λ v. v ≡ (if bytes_eq sort.now variable.now.sort then variable.now
        else a_variable sort.now)) }
{
    if *sort == variable.sort {
        let name = variable.name.copy()?;
        let sort = variable.sort.copy()?;
        return Ok(Variable { name, sort });
    }
    let other = a_variable(alloc, sort)?;
    Ok(other)
}

// A variable named a, at a sort.
pub(crate) fn a_variable(alloc: Global, sort: &Sort) -> Result<Variable, Memory>
    ensures { IfOk result (λ v. v ≡ a_variable sort.now) }
{
    let name = Name::new(alloc, b"a")?;
    let sort = sort.copy()?;
    Ok(Variable { name, sort })
}

// The goal is supposed of each constant of the variable's sort.
fn supposed_of(
    alloc: Global,
    variable: &Variable,
    goal: &Term,
    constants: &[Operator],
) -> Result<Statements, Memory>
    ensures { IfOk result (λ hs. hs ≡ map equate (supposed_of variable.now goal.now constants.now)) }
{
    let mut hypotheses = Sequence::new(alloc);
    for operator in constants {
        if *operator.range() != variable.sort {
            continue;
        }
        let hypothesis = supposition(alloc, variable, goal, operator)?;
        hypotheses.push(hypothesis)?;
    }
    Ok(hypotheses)
}

fn supposition(
    alloc: Global,
    variable: &Variable,
    goal: &Term,
    operator: &Operator,
) -> Result<Statement, Memory>
    ensures { IfOk result (λ s. s ≡ equate (holds (goal_at variable.now goal.now (constant operator.now)))) }
{
    let term = constant(alloc, operator)?;
    let left = goal_at(alloc, variable, goal, term)?;
    let right = truth(alloc)?;
    Ok(Statement::Equation(left, right))
}

// What a generator makes of constants.
fn made_of(alloc: Global, generator: &Operator, constants: &[Operator]) -> Result<Term, Memory>
    ensures { IfOk result (λ t. t ≡ app generator.now (constant_terms constants.now)) }
{
    let mut arguments = Vec::with_capacity(alloc, constants.len())?;
    for operator in constants {
        let argument = constant(alloc, operator)?;
        arguments.push(argument)?;
    }
    let generator = generator.copy()?;
    Ok(Term::app(generator, Terms::from_vec(arguments)))
}

// The goal with a term in the place of a variable.
fn goal_at(alloc: Global, variable: &Variable, goal: &Term, term: Term) -> Result<Term, Memory>
    ensures { IfOk result (λ t. t ≡ goal_at variable.now goal.now term) }
{
    let name = variable.name.copy()?;
    let sort = variable.sort.copy()?;
    let mut by = Substitution::new(alloc);
    by.push(name, sort, term)?;
    let at = substitute(alloc, goal, &by)?;
    Ok(at)
}
