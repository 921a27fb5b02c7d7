ghost use Rattle.std.specs.Prelude.{◌≡◌, ◌^◌, ◌-◌, min};
ghost use Rattle.larch_term.specs.Tree.{nodes, nodes_all, forest_of};

use crate::term::{Node, Term, Terms};

/// How many nodes a term has; the greatest number of `u64` where it has more. It takes no memory.
#[cycle(size)]
pub fn size(term: &Term) -> u64
    ensures { result ≡ min (nodes term.now) (2 ^ 64 - 1) }
{
    match &term.node {
        Node::Var(_, _) => 1,
        Node::App(_, arguments) => size_of_all(arguments).saturating_add(1),
    }
}

#[cycle(size)]
fn size_of_all(terms: &Terms) -> u64
    ensures { result ≡ min (nodes_all (forest_of terms.now)) (2 ^ 64 - 1) }
{
    let mut total: u64 = 0;
    for term in &terms.items {
        total = total.saturating_add(size(term));
    }
    total
}
