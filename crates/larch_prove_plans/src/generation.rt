ghost use Rattle.std.specs.Prelude.{◌≡◌, ◌∷◌, [], codes, map, None, Some, IfOk};
ghost use Rattle.larch_calculus.specs.Formula.{apply_one, implication};
ghost use Rattle.larch_calculus.specs.Generation.{generation_formula, generation_hypotheses, holding, variable_terms};
ghost use Rattle.larch_calculus.specs.Generation.{variables_from};
ghost use Rattle.larch_prove_plans.specs.ClauseGoals.{generation_goal, implied_if, predicate_named, with_conjunct};
ghost use Rattle.larch_prove_plans.specs.ClauseGoals.{with_conjuncts};
ghost use Rattle.larch_term.specs.Tree.{app, var};
ghost use Rattle.larch_term.specs.Truth.{truth};
ghost use Rattle.larch_term.specs.declared.statement.Statement.TheVariants.{Equation};

use crate::places::variables_by_place;
use crate::subgoals::Subgoal;
use crate::terms::{joined, truth};
use larch_base::{Memory, Name, Sequence};
use larch_term::{
    BuiltIn, Operator, Operators, Sort, Sorts, Statement, Statements, Term, Terms, Variable,
    bool_sort,
};
use std::alloc::Global;

/// What has to be shown of a clause: that operators generate a sort. The subgoal's constant is a predicate with a name,
/// and what the operators make inherits it.
pub fn generation_goal(
    alloc: Global,
    name: &Name,
    sort: &Sort,
    operators: &[Operator],
) -> Result<Subgoal, Memory>
    ensures { IfOk result (λ s. s ≡ generation_goal name.now sort.now operators.now) }
{
    let predicate = predicate_named(alloc, name, sort)?;
    let hypotheses = generation_hypotheses(alloc, &predicate, sort, operators)?;
    let goal = of_variable(alloc, &predicate, sort)?;
    let constants = alone(alloc, predicate)?;
    Ok(Subgoal {
        constants,
        hypotheses,
        goal,
    })
}

// A predicate on a sort, with a name.
fn predicate_named(alloc: Global, name: &Name, sort: &Sort) -> Result<Operator, Memory>
    ensures { IfOk result (λ p. p ≡ predicate_named name.now sort.now) }
{
    let name = name.copy()?;
    let domain = one_sort(alloc, sort)?;
    let range = bool_sort(alloc)?;
    let predicate = Operator::new(alloc, name, domain, range)?;
    Ok(predicate)
}

fn one_sort(alloc: Global, sort: &Sort) -> Result<Sorts, Memory>
    ensures { IfOk result (λ ss. ss ≡ sort.now ∷ []) }
{
    let sort = sort.copy()?;
    let mut sorts = Sequence::new(alloc);
    sorts.push(sort)?;
    Ok(sorts)
}

fn alone(alloc: Global, operator: Operator) -> Result<Operators, Memory>
    ensures { IfOk result (λ fs. fs ≡ operator ∷ []) }
{
    let mut operators = Sequence::new(alloc);
    operators.push(operator)?;
    Ok(operators)
}

// A predicate of x.
fn of_variable(alloc: Global, predicate: &Operator, sort: &Sort) -> Result<Term, Memory>
    ensures { IfOk result (λ t. t ≡ apply_one predicate.now (var (codes "x") sort.now)) }
{
    let name = Name::new(alloc, b"x")?;
    let sort = sort.copy()?;
    let term = apply_one(alloc, predicate, Term::var(name, sort))?;
    Ok(term)
}

fn apply_one(alloc: Global, operator: &Operator, argument: Term) -> Result<Term, Memory>
    ensures { IfOk result (λ t. t ≡ apply_one operator.now argument) }
{
    let operator = operator.copy()?;
    let mut arguments = Vec::with_capacity(alloc, 1)?;
    arguments.push(argument)?;
    Ok(Term::app(operator, Terms::from_vec(arguments)))
}

// That what each operator makes inherits a predicate on a sort.
fn generation_hypotheses(
    alloc: Global,
    predicate: &Operator,
    sort: &Sort,
    operators: &[Operator],
) -> Result<Statements, Memory>
    ensures { IfOk result (λ hs. hs ≡ generation_hypotheses predicate.now sort.now operators.now) }
{
    let mut hypotheses = Sequence::new(alloc);
    for operator in operators {
        let hypothesis = generation_hypothesis(alloc, predicate, sort, operator)?;
        hypotheses.push(hypothesis)?;
    }
    Ok(hypotheses)
}

fn generation_hypothesis(
    alloc: Global,
    predicate: &Operator,
    sort: &Sort,
    operator: &Operator,
) -> Result<Statement, Memory>
    ensures { IfOk result (λ h. h ≡ Equation (generation_formula predicate.now sort.now operator.now) truth) }
{
    let formula = generation_formula(alloc, predicate, sort, operator)?;
    let truth = truth(alloc)?;
    Ok(Statement::Equation(formula, truth))
}

// The predicate holds of what an operator makes, if it does of the arguments of the sort.
#[tactic(auto, using(crate::proofs::Generating::implied_so))]
fn generation_formula(
    alloc: Global,
    predicate: &Operator,
    sort: &Sort,
    operator: &Operator,
) -> Result<Term, Memory>
    ensures { IfOk result (λ t. t ≡ generation_formula predicate.now sort.now operator.now) }
{
    let variables = variables_by_place(alloc, operator.domain())?;
    let premise = all_holding(alloc, predicate, sort, variables.as_slice())?;
    let made = made_of(alloc, operator, variables.as_slice())?;
    let shown = apply_one(alloc, predicate, made)?;
    let formula = implied_if(alloc, premise, shown)?;
    Ok(formula)
}

// The predicate holds of each variable of the sort, if there is one.
fn all_holding(
    alloc: Global,
    predicate: &Operator,
    sort: &Sort,
    variables: &[Variable],
) -> Result<Option<Term>, Memory>
    ensures { IfOk result (λ t. t ≡ with_conjuncts None (holding predicate.now sort.now variables.now)) }
{
    let mut premise = None;
    for variable in variables {
        if variable.sort != *sort {
            continue;
        }
        let held = held_by(alloc, predicate, variable)?;
        let joined = with_conjunct(alloc, premise, held)?;
        premise = Some(joined);
    }
    Ok(premise)
}

fn held_by(alloc: Global, predicate: &Operator, variable: &Variable) -> Result<Term, Memory>
    ensures { IfOk result (λ t. t ≡ apply_one predicate.now (var variable.now.name variable.now.sort)) }
{
    let argument = variable_term(variable)?;
    let term = apply_one(alloc, predicate, argument)?;
    Ok(term)
}

fn variable_term(variable: &Variable) -> Result<Term, Memory>
    ensures { IfOk result (λ t. t ≡ var variable.now.name variable.now.sort) }
{
    let name = variable.name.copy()?;
    let sort = variable.sort.copy()?;
    Ok(Term::var(name, sort))
}

// A conjunction, if there is one, with one term more.
fn with_conjunct(alloc: Global, premise: Option<Term>, further: Term) -> Result<Term, Memory>
    ensures { IfOk result (λ t. t ≡ with_conjunct premise further) }
{
    match premise {
        None => Ok(further),
        Some(before) => {
            let sort = bool_sort(alloc)?;
            let and = BuiltIn::And.operator(alloc, &sort)?;
            let both = joined(alloc, and, before, further)?;
            Ok(both)
        }
    }
}

// What follows from a premise; alone where there is none.
fn implied_if(alloc: Global, premise: Option<Term>, conclusion: Term) -> Result<Term, Memory>
    ensures { IfOk result (λ t. t ≡ implied_if premise conclusion) }
{
    match premise {
        None => Ok(conclusion),
        Some(premise) => {
            let sort = bool_sort(alloc)?;
            let implies = BuiltIn::Implies.operator(alloc, &sort)?;
            let implied = joined(alloc, implies, premise, conclusion)?;
            Ok(implied)
        }
    }
}

// What an operator makes of variables.
fn made_of(alloc: Global, operator: &Operator, variables: &[Variable]) -> Result<Term, Memory>
    ensures { IfOk result (λ t. t ≡ app operator.now (variable_terms variables.now)) }
{
    let mut arguments = Vec::with_capacity(alloc, variables.len())?;
    for variable in variables {
        let argument = variable_term(variable)?;
        arguments.push(argument)?;
    }
    let operator = operator.copy()?;
    Ok(Term::app(operator, Terms::from_vec(arguments)))
}
