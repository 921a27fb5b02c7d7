ghost use Rattle.std.specs.Prelude.{◌≡◌, IfOk};
ghost use Rattle.larch_term.specs.Tree.{var};

use crate::operator::{Operator, Sort};
use crate::statement::{Operators, Statement, Statements, Theory};
use crate::term::{Node, Term, Terms};
use larch_base::{Memory, Name, Sequence};
use std::alloc::Global;

/// The same term once more.
#[cycle(copy)]
pub fn copy(alloc: Global, term: &Term) -> Result<Term, Memory>
    ensures { IfOk result (λ t. t ≡ term.now) }
{
    match &term.node {
        Node::Var(name, sort) => copy_variable(name, sort),
        Node::App(operator, arguments) => {
            let arguments = copy_all(alloc, arguments)?;
            let operator = operator.copy()?;
            Ok(Term::app(operator, arguments))
        }
    }
}

/// The variable with this name and sort, from copies of both.
pub(crate) fn copy_variable(name: &Name, sort: &Sort) -> Result<Term, Memory>
    ensures { IfOk result (λ t. t ≡ var name.now sort.now) }
{
    let name = name.copy()?;
    let sort = sort.copy()?;
    Ok(Term::var(name, sort))
}

#[cycle(copy)]
fn copy_all(alloc: Global, terms: &Terms) -> Result<Terms, Memory>
    ensures { IfOk result (λ ts. ts ≡ terms.now) }
{
    let mut copies = Vec::with_capacity(alloc, terms.items.len())?;
    for term in &terms.items {
        let copied = copy(alloc, term)?;
        copies.push(copied)?;
    }
    Ok(Terms::from_vec(copies))
}

/// The same operators once more.
pub fn copy_operators(alloc: Global, operators: &[Operator]) -> Result<Operators, Memory>
    ensures { IfOk result (λ copies. copies ≡ operators.now) }
{
    let mut copies = Sequence::new(alloc);
    for operator in operators {
        let copied = operator.copy()?;
        copies.push(copied)?;
    }
    Ok(copies)
}

/// The same statement once more.
pub fn copy_statement(alloc: Global, statement: &Statement) -> Result<Statement, Memory>
    ensures { IfOk result (λ s. s ≡ statement.now) }
{
    match statement {
        Statement::Equation(left, right) => {
            let left = copy(alloc, left)?;
            let right = copy(alloc, right)?;
            Ok(Statement::Equation(left, right))
        }
        Statement::Generated(sort, generators) => {
            let operators = copy_operators(alloc, generators.as_slice())?;
            let sort = sort.copy()?;
            Ok(Statement::Generated(sort, operators))
        }
        Statement::Partitioned(sort, observers) => {
            let operators = copy_operators(alloc, observers.as_slice())?;
            let sort = sort.copy()?;
            Ok(Statement::Partitioned(sort, operators))
        }
    }
}

/// The same statements once more.
pub fn copy_statements(alloc: Global, statements: &[Statement]) -> Result<Statements, Memory>
    ensures { IfOk result (λ copies. copies ≡ statements.now) }
{
    let mut copies = Sequence::new(alloc);
    for statement in statements {
        let copied = copy_statement(alloc, statement)?;
        copies.push(copied)?;
    }
    Ok(copies)
}

/// The same theory once more.
pub fn copy_theory(alloc: Global, theory: &Theory) -> Result<Theory, Memory>
    ensures { IfOk result (λ t. t ≡ theory.now) }
{
    let operators = copy_operators(alloc, theory.operators.as_slice())?;
    let statements = copy_statements(alloc, theory.statements.as_slice())?;
    Ok(Theory {
        operators,
        statements,
    })
}
