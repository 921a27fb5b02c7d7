ghost use Rattle.std.specs.Prelude.{◌≡◌, ◌++◌, ◌∷◌, [], map, IfOk};
ghost use Rattle.larch_term.specs.Operator.{plain};
ghost use Rattle.larch_shorthand.specs.Operators.{constant, on, on_two, operator};

use larch_base::{Bytes, Memory, Name, Sequence};
use larch_term::{Operator, Operators, Sort, Sorts, Term, Terms, copy};
use std::alloc::Global;

// The name of these bytes with further bytes behind them.
pub(crate) fn name_of(alloc: Global, front: &[u8], back: &[u8]) -> Result<Name, Memory>
    ensures { IfOk result (λ name. name ≡ front.now ++ back.now) }
{
    let mut bytes = Bytes::new(alloc);
    bytes.append(front)?;
    bytes.append(back)?;
    Name::new(alloc, bytes.bytes())
}

// The constant of this name.
pub(crate) fn constant_of(alloc: Global, name: &Name, range: &Sort) -> Result<Operator, Memory>
    ensures { IfOk result (λ f. f ≡ operator name.now [] range.now) }
{
    let name = name.copy()?;
    let range = range.copy()?;
    let operator = Operator::new(alloc, name, Sequence::new(alloc), range)?;
    Ok(operator)
}

// The operator of this name from one sort to another.
pub(crate) fn from_one(
    alloc: Global,
    name: Name,
    taken: &Sort,
    range: &Sort,
) -> Result<Operator, Memory>
    ensures { IfOk result (λ f. f ≡ operator name (taken.now ∷ []) range.now) }
{
    let domain = sorts_of(alloc, &[taken])?;
    let range = range.copy()?;
    let operator = Operator::new(alloc, name, domain, range)?;
    Ok(operator)
}

// The operator of this name from two sorts to another.
pub(crate) fn from_two(
    alloc: Global,
    name: Name,
    taken: &Sort,
    second: &Sort,
    range: &Sort,
) -> Result<Operator, Memory>
    ensures { IfOk result (λ f. f ≡ operator name (taken.now ∷ second.now ∷ []) range.now) }
{
    let domain = sorts_of(alloc, &[taken, second])?;
    let range = range.copy()?;
    let operator = Operator::new(alloc, name, domain, range)?;
    Ok(operator)
}

// Sorts, as a list of copies.
fn sorts_of(alloc: Global, sorts: &[&Sort]) -> Result<Sorts, Memory>
    ensures { IfOk result (λ copies. copies ≡ map (λ sort. sort.now) sorts.now) }
{
    let mut copies = Sequence::new(alloc);
    for sort in sorts {
        let copy = sort.copy()?;
        copies.push(copy)?;
    }
    Ok(copies)
}

// One operator as a list.
pub(crate) fn only(alloc: Global, operator: &Operator) -> Result<Operators, Memory>
    ensures { IfOk result (λ operators. operators ≡ operator.now ∷ []) }
{
    let mut operators = Sequence::new(alloc);
    let operator = operator.copy()?;
    operators.push(operator)?;
    Ok(operators)
}

// A constant as a term.
pub(crate) fn constant(alloc: Global, operator: &Operator) -> Result<Term, Memory>
    ensures { IfOk result (λ term. term ≡ constant operator.now) }
{
    let operator = operator.copy()?;
    Ok(Term::app(operator, Terms::from_vec(Vec::new(alloc))))
}

// An operator of one term.
pub(crate) fn on(alloc: Global, operator: &Operator, argument: Term) -> Result<Term, Memory>
    ensures { IfOk result (λ term. term ≡ on operator.now argument) }
{
    let operator = operator.copy()?;
    let mut arguments = Vec::new(alloc);
    arguments.push(argument)?;
    Ok(Term::app(operator, Terms::from_vec(arguments)))
}

// An operator of two terms.
pub(crate) fn on_two(
    alloc: Global,
    operator: &Operator,
    argument: Term,
    second: Term,
) -> Result<Term, Memory>
    ensures { IfOk result (λ term. term ≡ on_two operator.now argument second) }
{
    let operator = operator.copy()?;
    let mut arguments = Vec::new(alloc);
    arguments.push(argument)?;
    arguments.push(second)?;
    Ok(Term::app(operator, Terms::from_vec(arguments)))
}
