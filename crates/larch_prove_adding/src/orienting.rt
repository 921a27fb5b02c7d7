ghost use Rattle.std.specs.Prelude.{◌≡◌, ◌≤◌, bytes_eq, if◌then◌else◌, IfOk};
ghost use Rattle.larch_prove_invariant.specs.CalculusFormula.{apply_two};
ghost use Rattle.larch_derive.specs.Predicates.{Extends};
ghost use Rattle.larch_prove_adding.specs.Equation.{IsSaid, IsSmall, sides_in};
ghost use Rattle.larch_prove_invariant.specs.ProveMeaningFacts.{equality_term, orient};
ghost use Rattle.larch_store.specs.Stored.{most_nodes};
ghost use Rattle.larch_term.specs.BuiltIn.{bool_sort, built_in};
ghost use Rattle.larch_term.specs.Sorts.{sort_of};
ghost use Rattle.larch_term.specs.Tree.{nodes};
ghost use Rattle.larch_term.specs.Truth.{truth};

use crate::equation::{SaidEquation, exchange_sides};
use larch_base::Memory;
use larch_derive::Builder;
use larch_prove_invariant::from_derive_formulas::push_equality;
use larch_prove_invariant::from_order::Precedence;
use larch_term::{BuiltIn, Operator, Term, Terms, sort_of};
use std::alloc::Global;

// The rule that an equation makes: from the greater side to the other one; where neither is greater, that the equality
// of both is true.
#[tactic(auto, using(larch_derive::proofs::Growth::extends_same))]
pub(crate) fn orient_equation(
    alloc: Global,
    builder: &mut Builder,
    precedence: &Precedence,
    equation: SaidEquation,
) -> Result<SaidEquation, Memory>
    requires said { IsSaid builder.old equation }
    requires small { IsSmall equation }
    ensures sides { IfOk result (λ e. sides_in e ≡ orient precedence.now (sides_in equation)) }
    ensures small { IfOk result (λ e. nodes e.right ≤ most_nodes) }
    ensures says { IfOk result (IsSaid builder.new) }
    ensures extends { Extends builder.old builder.new }
{
    if precedence.greater(&equation.left, &equation.right) {
        return Ok(equation);
    }
    if precedence.greater(&equation.right, &equation.left) {
        let rule = exchange_sides(builder, equation)?;
        return Ok(rule);
    }
    equate(alloc, builder, equation)
}

// That the equality of both sides is true, or at Bool their equivalence.
#[tactic(auto, using(larch_derive::proofs::Growth::extends_same))]
fn equate(
    alloc: Global,
    builder: &mut Builder,
    equation: SaidEquation,
) -> Result<SaidEquation, Memory>
    requires { IsSaid builder.old equation }
    ensures left { IfOk result (λ e. e.left ≡ equality_term (sides_in equation)) }
    ensures right { IfOk result (λ e. e.right ≡ truth) }
    ensures says { IfOk result (IsSaid builder.new) }
    ensures extends { Extends builder.old builder.new }
{
    let line = push_equality(alloc, builder, &equation.left, equation.line)?;
    let SaidEquation { left, right, .. } = equation;
    let left = equality_of(alloc, left, right)?;
    let right = BuiltIn::True.constant(alloc)?;
    Ok(SaidEquation { left, right, line })
}

// The equality of two terms, or at Bool their equivalence.
fn equality_of(alloc: Global, left: Term, right: Term) -> Result<Term, Memory>
    ensures { IfOk result (λ t. t ≡ equality_term (record { left = left; right = right })) }
{
    let operator = equating(alloc, &left)?;
    apply_operator(alloc, operator, left, right)
}

// The operator by which terms of a term's sort are equate.
fn equating(alloc: Global, term: &Term) -> Result<Operator, Memory>
    ensures { IfOk result (λ f. f ≡ (if bytes_eq (sort_of term.now) bool_sort then built_in BuiltIn.Iff bool_sort
        else built_in BuiltIn.Equal (sort_of term.now))) }
{
    let sort = sort_of(term);
    let built_in = if sort.bytes() == b"Bool".as_slice() {
        BuiltIn::Iff
    } else {
        BuiltIn::Equal
    };
    built_in.operator(alloc, sort)
}

// An operator with two arguments.
fn apply_operator(
    alloc: Global,
    operator: Operator,
    left: Term,
    right: Term,
) -> Result<Term, Memory>
    ensures { IfOk result (λ t. t ≡ apply_two operator left right) }
{
    let mut arguments = Vec::with_capacity(alloc, 2)?;
    arguments.push(left)?;
    arguments.push(right)?;
    Ok(Term::app(operator, Terms::from_vec(arguments)))
}
