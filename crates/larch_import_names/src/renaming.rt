ghost use Rattle.std.specs.Prelude.{◌≡◌, map, IfOk};
ghost use Rattle.larch_renaming.specs.Renaming.{rename_tree, renamed_statement};
ghost use Rattle.larch_import_names.specs.Names.{renaming};

use crate::names::{rename_operator, rename_operators, rename_sort};
use crate::pairs::Renaming;
use larch_base::Memory;
use larch_term::{Node, Statement, Term, Terms};
use std::alloc::Global;

/// The statement with new sorts and operators in place of those that are named; variables keep their names.
pub fn rename_statement(
    alloc: Global,
    by: &Renaming,
    statement: &Statement,
) -> Result<Statement, Memory>
    ensures { IfOk result (λ new. new ≡ renamed_statement (renaming by.now) statement.now) }
{
    match statement {
        Statement::Equation(left, right) => {
            let left = rename_term(alloc, by, left)?;
            let right = rename_term(alloc, by, right)?;
            Ok(Statement::Equation(left, right))
        }
        Statement::Generated(sort, generators) => {
            let operators = rename_operators(alloc, by, generators.as_slice())?;
            let sort = rename_sort(by, sort)?;
            Ok(Statement::Generated(sort, operators))
        }
        Statement::Partitioned(sort, observers) => {
            let operators = rename_operators(alloc, by, observers.as_slice())?;
            let sort = rename_sort(by, sort)?;
            Ok(Statement::Partitioned(sort, operators))
        }
    }
}

/// The term with new sorts and operators in place of those that are named; variables keep their names.
#[cycle(rename)]
#[tactic(auto, using(larch_term::specs::Tree::nodes_all_is_sum, crate::proofs::Terms::renamed_all_forest))]
pub fn rename_term(alloc: Global, by: &Renaming, term: &Term) -> Result<Term, Memory>
    ensures { IfOk result (λ new. new ≡ rename_tree (renaming by.now) term.now) }
{
    match term.node() {
        Node::Var(name, sort) => {
            let name = name.copy()?;
            let new = rename_sort(by, sort)?;
            Ok(Term::var(name, new))
        }
        Node::App(operator, arguments) => {
            let arguments = rename_terms(alloc, by, arguments)?;
            let operator = rename_operator(alloc, by, operator)?;
            Ok(Term::app(operator, arguments))
        }
    }
}

#[cycle(rename)]
#[tactic(auto, using(larch_term::specs::Tree::nodes_all_is_sum))]
fn rename_terms(alloc: Global, by: &Renaming, terms: &Terms) -> Result<Terms, Memory>
    ensures { IfOk result (λ new. new ≡ map (rename_tree (renaming by.now)) terms.now) }
{
    let mut items = Vec::with_capacity(alloc, terms.as_slice().len())?;
    for term in terms.as_slice() {
        let new = rename_term(alloc, by, term)?;
        items.push(new)?;
    }
    Ok(Terms::from_vec(items))
}
