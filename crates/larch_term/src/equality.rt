ghost use Rattle.std.specs.Prelude.{◌≡◌, ◌↔◌, IsTrue};

use crate::operator::{Operator, same_operator};
use crate::statement::{Statement, Theory};
use crate::term::{Node, Term, Terms};

/// Whether two terms are equal. It takes no memory.
#[cycle(same)]
#[tactic(auto, using(crate::proofs::TreeLists::same_parts))]
pub fn same_term(left: &Term, right: &Term) -> bool
    ensures { IsTrue result ↔ (left.now ≡ right.now) }
{
    match (&left.node, &right.node) {
        (Node::Var(name, sort), Node::Var(other, other_sort)) => name == other
            && sort == other_sort,
        (Node::App(operator, arguments), Node::App(other, others)) => {
            same_operator(operator, other) && same_terms(arguments, others)
        }
        _ => false,
    }
}

#[cycle(same)]
fn same_terms(left: &Terms, right: &Terms) -> bool
    ensures { IsTrue result ↔ (left.now ≡ right.now) }
{
    if left.items.len() != right.items.len() {
        return false;
    }
    for i in 0..left.items.len() {
        if !same_term(&left.items[i], &right.items[i]) {
            return false;
        }
    }
    true
}

/// Whether two statements are equal. It takes no memory.
pub fn same_statement(left: &Statement, right: &Statement) -> bool
    ensures { IsTrue result ↔ (left.now ≡ right.now) }
{
    match (left, right) {
        (Statement::Equation(side, other), Statement::Equation(third, fourth)) => {
            same_term(side, third) && same_term(other, fourth)
        }
        (Statement::Generated(sort, generators), Statement::Generated(other, others)) => {
            sort == other && same_operators(generators.as_slice(), others.as_slice())
        }
        (Statement::Partitioned(sort, observers), Statement::Partitioned(other, others)) => {
            sort == other && same_operators(observers.as_slice(), others.as_slice())
        }
        _ => false,
    }
}

/// Whether two theories are equal. It takes no memory.
pub fn same_theory(left: &Theory, right: &Theory) -> bool
    ensures { IsTrue result ↔ (left.now ≡ right.now) }
{
    same_operators(left.operators.as_slice(), right.operators.as_slice())
        && same_statements(left.statements.as_slice(), right.statements.as_slice())
}

/// Whether two lists of operators are equal. It takes no memory.
pub fn same_operators(left: &[Operator], right: &[Operator]) -> bool
    ensures { IsTrue result ↔ (left.now ≡ right.now) }
{
    if left.len() != right.len() {
        return false;
    }
    for i in 0..left.len() {
        if !same_operator(&left[i], &right[i]) {
            return false;
        }
    }
    true
}

/// Whether two lists of statements are equal. It takes no memory.
pub fn same_statements(left: &[Statement], right: &[Statement]) -> bool
    ensures { IsTrue result ↔ (left.now ≡ right.now) }
{
    if left.len() != right.len() {
        return false;
    }
    for i in 0..left.len() {
        if !same_statement(&left[i], &right[i]) {
            return false;
        }
    }
    true
}
