ghost use Rattle.std.specs.Prelude.{◌≡◌, ◌<◌, IfSome};
ghost use denote.Param.Weighed.{most};
ghost use Rattle.larch_term.specs.declared.term.Term.TheDeep.{size-Term as size_Term};
ghost use Rattle.larch_term.specs.Tree.{Tree, var, app, forest_of};
ghost use Rattle.larch_term.specs.TermView.{view_node};

use crate::operator::{Operator, Sort};
use larch_base::Name;
use std::marker::Model;

/// A term: a variable, or an operator with its arguments. Contracts see it as a plain tree.
#[cycle(term)]
pub struct Term {
    pub(crate) node: Node,
}

/// What a term is at its root.
#[cycle(term)]
#[derive(Drop)]
pub enum Node {
    /// A variable: its name and sort.
    Var(Name, Sort),
    /// An operator with its arguments.
    App(Operator, Terms),
}

/// The arguments of an operator, in order.
#[cycle(term)]
pub struct Terms {
    pub(crate) items: Vec<Term>,
}

impl Model for Term {
    ghost use Rattle.larch_term.specs.Tree.{Tree, nodes};
    ghost use Rattle.larch_term.specs.TreeCode.{coded_tree};

    ghost Value = { Tree };

    ghost coded = { coded_tree };

    ghost use Rattle.std.specs.Prelude.{◌*◌};
    ghost use Rattle.larch_term.specs.TermView.{view_node};

    ghost view = { λ term. view_node term.node };

    ghost size = { λ tree. 2 * nodes tree };

    ghost use Rattle.larch_term.specs.TermFalls.{node_falls};

    ghost size_decreases = { λ term _. node_falls term.node };
}

impl Model for Terms {
    ghost use Rattle.std.specs.Prelude.{List, ◌*◌, ◌+◌};
    ghost use Rattle.std.proofs.Common.{arith};
    ghost use Rattle.std.specs.Coded.{coded_list};
    ghost use Rattle.larch_term.specs.TreeCode.{coded_tree};
    ghost use Rattle.larch_term.specs.Tree.{Tree, forest_of, nodes_all};
    ghost use Rattle.larch_term.specs.TreeFalls.{most_le_nodes_all};

    ghost Value = { List Tree };

    ghost coded = { coded_list coded_tree };

    ghost view = { λ terms. terms.items.items };

    ghost size = { λ trees. 2 * nodes_all (forest_of trees) + 1 };

    ghost size_decreases = { λ terms _. omega (arith, most_le_nodes_all terms.items.items) };
}

impl Term {
    /// The variable with this name and sort.
    pub fn var(name: Name, sort: Sort) -> Term
        ensures { result ≡ var name sort }
    {
        Term {
            node: Node::Var(name, sort),
        }
    }

    /// The operator with these arguments.
    pub fn app(operator: Operator, arguments: Terms) -> Term
        ensures { result ≡ app operator (forest_of arguments) }
    {
        Term {
            node: Node::App(operator, arguments),
        }
    }

    /// What the term is at its root.
    pub fn node(&self) -> &Node
        ensures { view_node result.now ≡ self.now }
    {
        &self.node
    }

    // What the term was at its root.
    fn into_node(self) -> Node
        ensures { view_node result ≡ self }
    {
        let Term { node } = self;
        node
    }
}

impl Terms {
    /// These arguments. It takes no memory.
    pub fn from_vec(items: Vec<Term>) -> Terms
        ensures { result ≡ items.items }
    {
        Terms { items }
    }

    /// The arguments as a vector. It takes no memory.
    pub fn into_vec(self) -> Vec<Term>
        ensures { result.items ≡ self }
    {
        let Terms { items } = self;
        items
    }

    /// The arguments.
    pub fn as_slice(&self) -> &[Term]
        ensures { result.now ≡ self.now }
    {
        self.items.as_slice()
    }
}

// A call wherever a term is dropped, so that no function's proof takes terms apart.
impl Drop for Term {
    #[cycle(drops)]
    fn drop(self) {
        let Term { node: _node } = self;
    }
}

// Takes the terms apart one by one, so that a term of any depth can be dropped. Only out of memory
// are the arguments of a term dropped by recursion.
impl Drop for Terms {
    #[cycle(drops)]
    #[tactic(auto, using(crate::proofs::Deepest::most_joined, crate::proofs::Deepest::most_below, crate::proofs::Deepest::size_term, crate::proofs::Deepest::size_terms))]
    fn drop(self) {
        let Terms { items: mut work } = self;
        for _ in 0..u64::MAX {
            let Some(term) = work.pop() else {
                return;
            };
            if let Some(further) = arguments_of(term) {
                let mut further = further;
                let _ = work.append(&mut further);
            }
        }
    }
}

fn arguments_of(term: Term) -> Option<Vec<Term>>
    ensures { IfSome result (λ ts. most size_Term ts.items < size_Term term) }
{
    match term.into_node() {
        Node::Var(_name, _sort) => None,
        Node::App(_operator, arguments) => Some(arguments.into_vec()),
    }
}
