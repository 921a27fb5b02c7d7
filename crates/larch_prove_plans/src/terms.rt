ghost use Rattle.std.specs.Prelude.{◌≡◌, bytes_eq, if◌then◌else◌, IfOk};
ghost use Rattle.larch_calculus.specs.Formula.{constant, equality, equivalence, falsity, formula, apply_two};
ghost use Rattle.larch_term.specs.BuiltIn.{bool_sort, built_in};
ghost use Rattle.larch_term.specs.Sorts.{sort_of};
ghost use Rattle.larch_term.specs.Truth.{truth};

use larch_base::Memory;
use larch_term::{BuiltIn, Operator, Term, Terms, is_truth, sort_of};
use std::alloc::Global;

/// A constant as a term.
pub fn constant(alloc: Global, operator: &Operator) -> Result<Term, Memory>
    ensures { IfOk result (λ t. t ≡ constant operator.now) }
{
    let operator = operator.copy()?;
    Ok(Term::app(operator, Terms::from_vec(Vec::new(alloc))))
}

/// The constant true.
pub fn truth(alloc: Global) -> Result<Term, Memory>
    ensures { IfOk result (λ t. t ≡ truth) }
{
    BuiltIn::True.constant(alloc)
}

/// The constant false.
pub fn falsity(alloc: Global) -> Result<Term, Memory>
    ensures { IfOk result (λ t. t ≡ falsity) }
{
    BuiltIn::False.constant(alloc)
}

/// The formula of an equation: the other side where one is true, the right one first; else the equivalence of truth
/// values, or the equality at the sides' sort.
pub fn formula(alloc: Global, left: Term, right: Term) -> Result<Term, Memory>
    ensures { IfOk result (λ t. t ≡ formula left right) }
{
    if is_truth(&right) {
        return Ok(left);
    }
    if is_truth(&left) {
        return Ok(right);
    }
    let operator = equating(alloc, &left)?;
    let formula = joined(alloc, operator, left, right)?;
    Ok(formula)
}

// The operator by which terms of the term's sort are equated.
fn equating(alloc: Global, term: &Term) -> Result<Operator, Memory>
    ensures { IfOk result (λ f. f ≡ (if bytes_eq (sort_of term.now) bool_sort then built_in BuiltIn.Iff bool_sort
        else built_in BuiltIn.Equal (sort_of term.now))) }
{
    let sort = sort_of(term);
    let built_in = if sort.bytes() == b"Bool".as_slice() {
        BuiltIn::Iff
    } else {
        BuiltIn::Equal
    };
    let operator = built_in.operator(alloc, sort)?;
    Ok(operator)
}

// An operator with two arguments.
pub(crate) fn joined(
    alloc: Global,
    operator: Operator,
    left: Term,
    right: Term,
) -> Result<Term, Memory>
    ensures { IfOk result (λ t. t ≡ apply_two operator left right) }
{
    let mut arguments = Vec::with_capacity(alloc, 2)?;
    arguments.push(left)?;
    arguments.push(right)?;
    Ok(Term::app(operator, Terms::from_vec(arguments)))
}
