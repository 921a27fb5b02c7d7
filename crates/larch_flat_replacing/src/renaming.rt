ghost use Rattle.std.specs.Prelude.{◌≡◌, map, IfOk};
ghost use Rattle.larch_renaming.specs.Renaming.{rename_tree, renamed_statement};
ghost use Rattle.larch_flat_meaning.specs.Replacements.{renaming};

use crate::new_names::NewNames;
use larch_base::Memory;
use larch_term::{Node, Statement, Term, Terms, copy_statement};
use std::alloc::Global;

impl NewNames {
    /// The statement with the new sorts and operators in place of the old ones. Where nothing is replaced it is copied.
    pub fn rename_statement(
        &self,
        alloc: Global,
        statement: &Statement,
    ) -> Result<Statement, Memory>
        ensures { IfOk result (λ new. new ≡ renamed_statement (renaming self.now) statement.now) }
    {
        if self.replacements().is_none() {
            let same = copy_statement(alloc, statement)?;
            return Ok(same);
        }
        let new = renamed_statement(alloc, self, statement)?;
        Ok(new)
    }

    /// The term with the new sorts and operators in place of the old ones, made afresh.
    pub fn rename_term(&self, alloc: Global, term: &Term) -> Result<Term, Memory>
        ensures { IfOk result (λ new. new ≡ rename_tree (renaming self.now) term.now) }
    {
        let new = rename(alloc, self, term)?;
        Ok(new)
    }
}

// The statement by new names, made afresh.
fn renamed_statement(
    alloc: Global,
    names: &NewNames,
    statement: &Statement,
) -> Result<Statement, Memory>
    ensures { IfOk result (λ new. new ≡ renamed_statement (renaming names.now) statement.now) }
{
    match statement {
        Statement::Equation(left, right) => {
            let left = rename(alloc, names, left)?;
            let right = rename(alloc, names, right)?;
            Ok(Statement::Equation(left, right))
        }
        Statement::Generated(sort, generators) => {
            let operators = names.operators(alloc, generators.as_slice())?;
            let sort = names.sort(sort)?;
            Ok(Statement::Generated(sort, operators))
        }
        Statement::Partitioned(sort, observers) => {
            let operators = names.operators(alloc, observers.as_slice())?;
            let sort = names.sort(sort)?;
            Ok(Statement::Partitioned(sort, operators))
        }
    }
}

// The term by new names.
#[cycle(rename)]
#[tactic(auto, using(larch_term::specs::Tree::nodes_all_is_sum, crate::proofs::Terms::renamed_all_forest))]
fn rename(alloc: Global, names: &NewNames, term: &Term) -> Result<Term, Memory>
    ensures { IfOk result (λ new. new ≡ rename_tree (renaming names.now) term.now) }
{
    match term.node() {
        Node::Var(name, sort) => {
            let name = name.copy()?;
            let new = names.sort(sort)?;
            Ok(Term::var(name, new))
        }
        Node::App(operator, arguments) => {
            let arguments = renamed_all(alloc, names, arguments)?;
            let operator = names.operator(alloc, operator)?;
            Ok(Term::app(operator, arguments))
        }
    }
}

// Terms by new names.
#[cycle(rename)]
#[tactic(auto, using(larch_term::specs::Tree::nodes_all_is_sum))]
fn renamed_all(alloc: Global, names: &NewNames, terms: &Terms) -> Result<Terms, Memory>
    ensures { IfOk result (λ new. new ≡ map (rename_tree (renaming names.now)) terms.now) }
{
    let mut items = Vec::with_capacity(alloc, terms.as_slice().len())?;
    for term in terms.as_slice() {
        let new = rename(alloc, names, term)?;
        items.push(new)?;
    }
    Ok(Terms::from_vec(items))
}
