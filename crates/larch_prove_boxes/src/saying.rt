ghost use Rattle.std.specs.Prelude.{◌≡◌, [], List, map, IfOk, IfSome, IfNone, OnOk};
ghost use Rattle.larch_term.specs.Truth.{truth};
ghost use Rattle.larch_calculus.specs.Formula.{formula, implication};
ghost use Rattle.larch_derive.specs.Predicates.{Extends, HasEquation};
ghost use Rattle.larch_prove_invariant.specs.MethodsMethods.{IsKnownFormula};
ghost use Rattle.larch_prove_invariant.specs.ProveMeaningPlans.{Subgoal as PlainSubgoal};
ghost use Rattle.larch_prove_invariant.specs.ProvePlansPlanning.{equate, method_of, subgoal_of};
ghost use Rattle.larch_prove_invariant.specs.Holding.{premise, said_of, sides_within};
ghost use Rattle.larch_prove_boxes.specs.Saying.{MaySay};
ghost use Rattle.larch_prove_invariant.specs.RewriteMeaningSides.{Sides};

use larch_base::Memory;
use larch_derive::Builder;
use larch_prove_invariant::from_derive_formulas::push_equation;
use larch_prove_invariant::from_methods::{push_contradicted, push_implied};
use larch_prove_invariant::from_prove_plans::{Method, Subgoal, truth};
use larch_term::{BuiltIn, Statement, Term, Terms, bool_sort, copy, two_arguments};
use std::alloc::Global;

// A line that says what a method wants of a subgoal, in the box with a number if it has one, by a line that says that
// the subgoal's goal is true.
#[tactic(auto, using(larch_derive::proofs::Growth::extends_refl))]
pub(crate) fn say_left(
    alloc: Global,
    builder: &mut Builder,
    method: &Method,
    subgoal: &Subgoal,
    number: u64,
    line: u64,
) -> Result<u64, Memory>
    ensures says { IfOk result (λ n. (g : PlainSubgoal) → subgoal.now ≡ subgoal_of g
        → MaySay builder.old (method_of method.now) g number → HasEquation builder.old line g.goal truth
        → HasEquation builder.new n (said_of (method_of method.now) g).left (said_of (method_of method.now) g).right) }
    ensures extends { OnOk result ((g : PlainSubgoal) → subgoal.now ≡ subgoal_of g
        → MaySay builder.old (method_of method.now) g number → HasEquation builder.old line g.goal truth
        → Extends builder.old builder.new) }
{
    match method {
        Method::Implication => say_implied(alloc, builder, subgoal, line),
        Method::Contradiction => push_contradicted(alloc, builder, number, line),
        Method::Partition => say_observed(alloc, builder, &subgoal.goal, line),
        Method::Cases(_) => Ok(line),
        Method::Conjunction => Ok(line),
        Method::Induction(_) => Ok(line),
    }
}

// That an implication is true whose premise is supposed, by a line that says that its conclusion is.
fn say_implied(
    alloc: Global,
    builder: &mut Builder,
    subgoal: &Subgoal,
    line: u64,
) -> Result<u64, Memory>
    ensures says { IfOk result (λ n. (g : PlainSubgoal) → subgoal.now ≡ subgoal_of g
        → IsKnownFormula builder.old (implication (premise g.hypotheses) g.goal)
        → HasEquation builder.old line g.goal truth
        → HasEquation builder.new n (implication (premise g.hypotheses) g.goal) truth) }
    ensures extends { OnOk result ((g : PlainSubgoal) → subgoal.now ≡ subgoal_of g
        → IsKnownFormula builder.old (implication (premise g.hypotheses) g.goal)
        → HasEquation builder.old line g.goal truth → Extends builder.old builder.new) }
{
    let whole = whole_of(alloc, subgoal)?;
    push_implied(alloc, builder, &whole, line)
}

// The implication of what a subgoal supposes first and its goal.
fn whole_of(alloc: Global, subgoal: &Subgoal) -> Result<Term, Memory>
    ensures { IfOk result (λ t. (g : PlainSubgoal) → subgoal.now ≡ subgoal_of g
        → t ≡ implication (premise g.hypotheses) g.goal) }
{
    let premise = premise_of(alloc, subgoal.hypotheses.as_slice())?;
    let goal = copy(alloc, &subgoal.goal)?;
    implication(alloc, premise, goal)
}

// An implication of two terms.
fn implication(alloc: Global, premise: Term, conclusion: Term) -> Result<Term, Memory>
    ensures { IfOk result (λ t. t ≡ implication premise conclusion) }
{
    let mut arguments = Vec::with_capacity(alloc, 2)?;
    arguments.push(premise)?;
    arguments.push(conclusion)?;
    let sort = bool_sort(alloc)?;
    let implies = BuiltIn::Implies.operator(alloc, &sort)?;
    Ok(Term::app(implies, Terms::from_vec(arguments)))
}

// The left side of the first of equations.
fn premise_of(alloc: Global, hypotheses: &[Statement]) -> Result<Term, Memory>
    ensures { IfOk result (λ t. (hs : List Sides) → hypotheses.now ≡ map equate hs → t ≡ premise hs) }
{
    match first_left(hypotheses) {
        Some(left) => copy(alloc, left),
        None => truth(alloc),
    }
}

fn first_left<'a>(hypotheses: &'a [Statement]) -> Option<&'a Term>
    ensures some { IfSome result (λ l. (hs : List Sides) → hypotheses.now ≡ map equate hs → l.now ≡ premise hs) }
    ensures none { IfNone result ((hs : List Sides) → hypotheses.now ≡ map equate hs → hs ≡ []) }
{
    let [first, ..] = hypotheses else {
        return None;
    };
    match first {
        Statement::Equation(left, _) => Some(left),
        Statement::Generated(_, _) => None,
        Statement::Partitioned(_, _) => None,
    }
}

// The equation whose formula a subgoal's goal is, by a line that says that this is true.
#[tactic(auto, using(larch_derive::proofs::Growth::extends_refl))]
fn say_observed(alloc: Global, builder: &mut Builder, goal: &Term, line: u64) -> Result<u64, Memory>
    ensures says { IfOk result (λ n. goal.now ≡ formula (sides_within goal.now).left (sides_within goal.now).right
        → HasEquation builder.old line goal.now truth
        → HasEquation builder.new n (sides_within goal.now).left (sides_within goal.now).right) }
    ensures extends { OnOk result (goal.now ≡ formula (sides_within goal.now).left (sides_within goal.now).right
        → HasEquation builder.old line goal.now truth → Extends builder.old builder.new) }
{
    let Some(two) = two_arguments(goal) else {
        return Ok(line);
    };
    push_equation(alloc, builder, two.left, two.right, line)
}
