ghost use Rattle.std.specs.Prelude.{◌≡◌, ◌∷◌, [], map, IfOk};
ghost use Rattle.larch_term.specs.declared.statement.Statement.TheVariants.{Generated};
ghost use Rattle.larch_shorthand.specs.Enumeration.{all_differ, all_followed, differ, elements, enumeration_statements};
ghost use Rattle.larch_shorthand.specs.Enumeration.{enumeration, enumeration_operators, following_statement, followed_from};
ghost use Rattle.larch_shorthand.specs.Enumeration.{successor};

use crate::append::append;
use crate::expansion::Expansion;
use crate::operators::{constant, constant_of, from_one, on, on_two};
use larch_base::{Memory, Name, Sequence};
use larch_term::{BuiltIn, Operator, Operators, Sort, Statement, Statements, copy_operators};
use std::alloc::Global;

// What an enumeration stands for.
pub(crate) fn enumeration(alloc: Global, sort: &Sort, names: &[Name]) -> Result<Expansion, Memory>
    ensures { IfOk result (λ e. e ≡ enumeration sort.now names.now) }
{
    let elements = elements(alloc, sort, names)?;
    let successor = successor(alloc, sort)?;
    let statements = enumeration_statements(alloc, sort, elements.as_slice(), &successor)?;
    let mut operators = elements;
    operators.push(successor)?;
    Ok(Expansion {
        operators,
        statements,
    })
}

// The operators of an enumeration.
pub(crate) fn enumeration_operators(
    alloc: Global,
    sort: &Sort,
    names: &[Name],
) -> Result<Operators, Memory>
    ensures { IfOk result (λ fs. fs ≡ enumeration_operators sort.now names.now) }
{
    let mut operators = elements(alloc, sort, names)?;
    let successor = successor(alloc, sort)?;
    operators.push(successor)?;
    Ok(operators)
}

// The constants of a sort with these names.
fn elements(alloc: Global, sort: &Sort, names: &[Name]) -> Result<Operators, Memory>
    ensures { IfOk result (λ fs. fs ≡ elements sort.now names.now) }
{
    let mut elements = Sequence::new(alloc);
    for name in names {
        let element = constant_of(alloc, name, sort)?;
        elements.push(element)?;
    }
    Ok(elements)
}

// The operator from each element to the next.
fn successor(alloc: Global, sort: &Sort) -> Result<Operator, Memory>
    ensures { IfOk result (λ f. f ≡ successor sort.now) }
{
    let name = Name::new(alloc, b"succ")?;
    let successor = from_one(alloc, name, sort, sort)?;
    Ok(successor)
}

// What is stated of the elements of a sort.
fn enumeration_statements(
    alloc: Global,
    sort: &Sort,
    elements: &[Operator],
    succ: &Operator,
) -> Result<Statements, Memory>
    requires { succ.now ≡ successor sort.now }
    ensures { IfOk result (λ ss. ss ≡ enumeration_statements sort.now elements.now) }
{
    let unequal = BuiltIn::Unequal.operator(alloc, sort)?;
    let generated = generated(alloc, sort, elements)?;
    let differing = all_differ(alloc, &unequal, elements)?;
    let following = all_followed(alloc, succ, elements)?;
    let statements = append(generated, differing)?;
    let statements = append(statements, following)?;
    Ok(statements)
}

// That the elements generate their sort, alone in a list.
fn generated(alloc: Global, sort: &Sort, elements: &[Operator]) -> Result<Statements, Memory>
    ensures { IfOk result (λ ss. ss ≡ Generated sort.now elements.now ∷ []) }
{
    let elements = copy_operators(alloc, elements)?;
    let sort = sort.copy()?;
    let mut statements = Sequence::new(alloc);
    statements.push(Statement::Generated(sort, elements))?;
    Ok(statements)
}

// That each two elements differ.
fn all_differ(
    alloc: Global,
    unequal: &Operator,
    elements: &[Operator],
) -> Result<Statements, Memory>
    ensures { IfOk result (λ ss. ss ≡ all_differ unequal.now elements.now) }
{
    let mut statements = Sequence::new(alloc);
    let mut rest = elements;
    while let [first, others @ ..] = rest {
        let more = differ_from(alloc, unequal, first, others)?;
        statements = append(statements, more)?;
        rest = others;
    }
    Ok(statements)
}

// That an element differs from others.
fn differ_from(
    alloc: Global,
    unequal: &Operator,
    first: &Operator,
    others: &[Operator],
) -> Result<Statements, Memory>
    ensures { IfOk result (λ ss. ss ≡ map (differ unequal.now first.now) others.now) }
{
    let mut statements = Sequence::new(alloc);
    for other in others {
        let statement = differ(alloc, unequal, first, other)?;
        statements.push(statement)?;
    }
    Ok(statements)
}

// That two elements differ.
fn differ(
    alloc: Global,
    unequal: &Operator,
    first: &Operator,
    second: &Operator,
) -> Result<Statement, Memory>
    ensures { IfOk result (λ s. s ≡ differ unequal.now first.now second.now) }
{
    let first = constant(alloc, first)?;
    let second = constant(alloc, second)?;
    let difference = on_two(alloc, unequal, first, second)?;
    let truth = BuiltIn::True.constant(alloc)?;
    Ok(Statement::Equation(difference, truth))
}

// That each element but the last is followed by the next.
fn all_followed(
    alloc: Global,
    successor: &Operator,
    elements: &[Operator],
) -> Result<Statements, Memory>
    ensures { IfOk result (λ ss. ss ≡ all_followed successor.now elements.now) }
{
    match elements {
        [first, others @ ..] => followed_from(alloc, successor, first, others),
        [] => Ok(Sequence::new(alloc)),
    }
}

// That an element is followed by the first of others, that by the next, and so on.
fn followed_from(
    alloc: Global,
    successor: &Operator,
    first: &Operator,
    others: &[Operator],
) -> Result<Statements, Memory>
    ensures { IfOk result (λ ss. ss ≡ followed_from successor.now first.now others.now) }
{
    let mut statements = Sequence::new(alloc);
    let mut last = first;
    for next in others {
        let statement = following_statement(alloc, successor, last, next)?;
        statements.push(statement)?;
        last = next;
    }
    Ok(statements)
}

// That an element is followed by another one.
fn following_statement(
    alloc: Global,
    successor: &Operator,
    first: &Operator,
    second: &Operator,
) -> Result<Statement, Memory>
    ensures { IfOk result (λ s. s ≡ following_statement successor.now first.now second.now) }
{
    let first = constant(alloc, first)?;
    let next = on(alloc, successor, first)?;
    let second = constant(alloc, second)?;
    Ok(Statement::Equation(next, second))
}
