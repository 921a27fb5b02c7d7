ghost use Rattle.std.specs.Prelude.{◌≡◌, fold, IfOk, OnOk};
ghost use Rattle.std.specs.List.{list_any};
ghost use Rattle.larch_term.specs.Variable.{occurrences, occurrences_in, same_variable, with_variable, variables_of};
ghost use Rattle.larch_term.specs.Tree.{forest_of};

use crate::operator::Sort;
use crate::term::{Node, Term, Terms};
use larch_base::{Memory, Name, Sequence};
use std::alloc::Global;

/// A variable: its name and sort.
#[derive(Drop)]
pub struct Variable {
    pub name: Name,
    pub sort: Sort,
}

/// Several variables, in order.
pub type Variables = Sequence<Variable>;

/// The different variables of a term, in the order in which each occurs first.
pub fn variables(alloc: Global, term: &Term) -> Result<Variables, Memory>
    ensures { IfOk result (λ vs. vs ≡ variables_of term.now) }
{
    let mut found = Sequence::new(alloc);
    add_variables(term, &mut found)?;
    Ok(found)
}

/// Puts the variables of a term behind others, each one that isn't there.
#[cycle(add_variables)]
pub fn add_variables(term: &Term, found: &mut Variables) -> Result<(), Memory>
    ensures { OnOk result (found.new ≡ fold with_variable found.old (occurrences term.now)) }
{
    match &term.node {
        Node::Var(name, sort) => {
            if !has_variable(found.as_slice(), name, sort) {
                let name = name.copy()?;
                let sort = sort.copy()?;
                found.push(Variable { name, sort })?;
            }
            Ok(())
        }
        Node::App(_, arguments) => {
            add_all_variables(arguments, found)?;
            Ok(())
        }
    }
}

#[cycle(add_variables)]
fn add_all_variables(terms: &Terms, found: &mut Variables) -> Result<(), Memory>
    ensures { OnOk result (found.new ≡ fold with_variable found.old (occurrences_in (forest_of terms.now))) }
{
    for term in &terms.items {
        add_variables(term, found)?;
    }
    Ok(())
}

fn has_variable(variables: &[Variable], name: &Name, sort: &Sort) -> bool
    ensures { result ≡ list_any (same_variable (record { name = name.now; sort = sort.now })) variables.now }
{
    variables.iter().any(|variable| *name == variable.name && *sort == variable.sort)
}
