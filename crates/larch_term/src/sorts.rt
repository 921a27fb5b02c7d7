ghost use Rattle.std.specs.Prelude.{◌≡◌, ◌↔◌, IsTrue};
ghost use Rattle.larch_term.specs.Sorts.{sort_of, sorts_of, WellSorted, AllWellSorted};
ghost use Rattle.larch_term.specs.Tree.{forest_of};

use crate::operator::Sort;
use crate::term::{Node, Term, Terms};

/// The sort of a term: its variable's, or its operator's range. It takes no memory.
pub fn sort_of(term: &Term) -> &Sort
    ensures { result.now ≡ sort_of term.now }
{
    match &term.node {
        Node::Var(_, sort) => sort,
        Node::App(operator, _) => operator.range(),
    }
}

/// Whether everywhere in a term the arguments' sorts are the operator's domain. It takes no memory.
#[cycle(well_sorted)]
pub fn is_well_sorted(term: &Term) -> bool
    ensures { IsTrue result ↔ WellSorted term.now }
{
    match &term.node {
        Node::Var(_, _) => true,
        Node::App(operator, arguments) => have_sorts(arguments, operator.domain())
            && are_well_sorted(arguments),
    }
}

#[cycle(well_sorted)]
fn are_well_sorted(terms: &Terms) -> bool
    ensures { IsTrue result ↔ AllWellSorted (forest_of terms.now) }
{
    for term in &terms.items {
        if !is_well_sorted(term) {
            return false;
        }
    }
    true
}

// Whether the terms have these sorts, one by one.
#[tactic(auto, using(crate::proofs::TreeLists::sorts_length))]
fn have_sorts(terms: &Terms, sorts: &[Sort]) -> bool
    ensures { IsTrue result ↔ (sorts_of (forest_of terms.now) ≡ sorts.now) }
{
    if terms.items.len() != sorts.len() {
        return false;
    }
    for i in 0..sorts.len() {
        if *sort_of(&terms.items[i]) != sorts[i] {
            return false;
        }
    }
    true
}
