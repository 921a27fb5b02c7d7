ghost use Rattle.std.specs.Prelude.{◌≡◌};
ghost use Rattle.larch_raw.specs.RawTree.{apply, qualified, raw_forest};
ghost use Rattle.larch_raw.specs.RawView.{view_node};

use crate::declared::RawWord;
use larch_base::{Name, Pos};
use std::marker::Model;

/// A term as it is written. Contracts see it as a plain tree.
#[cycle(raw)]
pub struct RawTerm {
    node: RawNode,
}

// By a call, so that a proof takes a term apart in one place alone.
impl Drop for RawTerm {
    #[cycle(drops)]
    fn drop(self) {
        let RawTerm { node: _node } = self;
    }
}

/// What a term is at its root.
#[cycle(raw)]
#[derive(Drop)]
pub enum RawNode {
    /// An operator's canonical name with its arguments, and where its head token stands.
    Apply(Name, RawTerms, Pos),
    /// A term with the sort that it is said to have, and where the `:` stands.
    Qualified(Box<RawTerm>, RawWord, Pos),
}

/// The arguments of an application, in order.
#[cycle(raw)]
#[derive(Drop)]
pub struct RawTerms {
    items: Vec<RawTerm>,
}

impl Model for RawTerm {
    ghost use Rattle.larch_raw.specs.RawTree.{RawTree, raw_nodes};
    ghost use Rattle.larch_raw.specs.RawCode.{coded_raw_tree};

    ghost Value = { RawTree };

    ghost coded = { coded_raw_tree };

    ghost use Rattle.std.specs.Prelude.{◌*◌};
    ghost use Rattle.larch_raw.specs.RawView.{view_node};

    ghost view = { λ term. view_node term.node };

    ghost size = { λ tree. 2 * raw_nodes tree };

    ghost use Rattle.larch_raw.specs.RawFalls.{node_falls};

    ghost size_decreases = { λ term _. node_falls term.node };
}

impl Model for RawTerms {
    ghost use Rattle.std.specs.Prelude.{List, ◌*◌, ◌+◌};
    ghost use Rattle.std.proofs.Common.{arith};
    ghost use Rattle.std.specs.Coded.{coded_list};
    ghost use Rattle.larch_raw.specs.RawCode.{coded_raw_tree};
    ghost use Rattle.larch_raw.specs.RawTree.{RawTree, raw_forest, raw_nodes_all};
    ghost use Rattle.larch_raw.specs.RawListFalls.{most_le_raw_nodes_all};

    ghost Value = { List RawTree };

    ghost coded = { coded_list coded_raw_tree };

    ghost view = { λ terms. terms.items.items };

    ghost size = { λ trees. 2 * raw_nodes_all (raw_forest trees) + 1 };

    ghost size_decreases = { λ terms _. omega (arith, most_le_raw_nodes_all terms.items.items) };
}

impl RawTerm {
    /// An application of this name, whose head token stands there.
    pub fn apply(name: Name, arguments: RawTerms, pos: Pos) -> RawTerm
        ensures { result ≡ apply name (raw_forest arguments) pos }
    {
        RawTerm {
            node: RawNode::Apply(name, arguments, pos),
        }
    }

    /// A term that is said to have this sort; the `:` stands there.
    pub fn qualify(term: Box<RawTerm>, sort: RawWord, pos: Pos) -> RawTerm
        ensures { result ≡ qualified term.value sort pos }
    {
        RawTerm {
            node: RawNode::Qualified(term, sort, pos),
        }
    }

    /// What the term is at its root.
    pub fn node(&self) -> &RawNode
        ensures { view_node result.now ≡ self.now }
    {
        &self.node
    }
}

impl RawTerms {
    /// These arguments. It takes no memory.
    pub fn from_vec(items: Vec<RawTerm>) -> RawTerms
        ensures { result ≡ items.items }
    {
        RawTerms { items }
    }

    /// The arguments as a vector. It takes no memory.
    pub fn into_vec(self) -> Vec<RawTerm>
        ensures { result.items ≡ self }
    {
        let RawTerms { items } = self;
        items
    }

    /// The arguments.
    pub fn as_slice(&self) -> &[RawTerm]
        ensures { result.now ≡ self.now }
    {
        self.items.as_slice()
    }
}
