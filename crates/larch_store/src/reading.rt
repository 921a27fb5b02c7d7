ghost use Rattle.std.specs.Prelude.{◌≡◌, map, IfOk};
ghost use Rattle.larch_term.specs.Tree.{app, forest_of, var};
ghost use Rattle.larch_store.specs.Numbered.{term_of};

use crate::shared::{Shared, SharedList, SharedNode};
use larch_base::{Memory, Name, let_go};
use larch_term::{Operator, Sort, Term, Terms};
use std::alloc::Global;

/// The term that a shared term is. It goes down the term by recursion.
#[cycle(reading)]
#[tactic(auto, using(crate::proofs::Standing::branch_term, crate::proofs::Counting::nodes_several))]
pub fn term_from(alloc: Global, shared: &Shared) -> Result<Term, Memory>
    ensures { IfOk result (λ term. term ≡ term_of shared.now) }
{
    match shared.node() {
        SharedNode::Variable(name, sort) => {
            let term = variable_from(name, sort)?;
            Ok(term)
        }
        SharedNode::Application(operator, arguments) => {
            let terms = terms_from(alloc, arguments)?;
            let term = application_from(operator, terms)?;
            Ok(term)
        }
    }
}

// The operator with these arguments, from a copy of it.
fn application_from(operator: &Operator, arguments: Terms) -> Result<Term, Memory>
    ensures { IfOk result (λ term. term ≡ app operator.now (forest_of arguments)) }
{
    match operator.copy() {
        Ok(operator) => Ok(Term::app(operator, arguments)),
        Err(memory) => Err(let_go(memory, arguments)),
    }
}

// The variable with this name and sort, from copies of both.
fn variable_from(name: &Name, sort: &Sort) -> Result<Term, Memory>
    ensures { IfOk result (λ term. term ≡ var name.now sort.now) }
{
    let name = name.copy()?;
    let sort = sort.copy()?;
    Ok(Term::var(name, sort))
}

#[cycle(reading)]
#[tactic(auto, using(crate::proofs::Counting::nodes_several))]
fn terms_from(alloc: Global, list: &SharedList) -> Result<Terms, Memory>
    ensures { IfOk result (λ terms. terms ≡ map term_of list.now) }
{
    let mut terms = Vec::with_capacity(alloc, list.as_slice().len())?;
    for shared in list.as_slice() {
        let term = term_from(alloc, shared)?;
        terms.push(term)?;
    }
    Ok(Terms::from_vec(terms))
}
