ghost use Rattle.std.specs.Prelude.{◌≡◌, nat_eq};
ghost use Rattle.std.proofs.Common.{rules};
ghost use Rattle.std.specs.Cmp.Lexicographic.{pointwise};
ghost use Rattle.std.specs.Cmp.Rules.{comparing};
ghost use Rattle.std.specs.Hash as fed;

use std::hash::{Hash, Hasher};
use std::marker::Model;

/// Numbers of nodes, in order, as a part of a key of tables. Contracts see them as a list.
#[derive(Drop)]
pub struct NodeNumbers {
    items: Vec<u32>,
}

impl Model for NodeNumbers {
    ghost use Rattle.std.specs.Prelude.{List, ℕ};

    ghost Value = { List ℕ };

    ghost view = { λ numbers. numbers.items.items };
}

impl NodeNumbers {
    /// These numbers. It takes no memory.
    pub fn from_vec(items: Vec<u32>) -> NodeNumbers
        ensures { result ≡ items.items }
    {
        NodeNumbers { items }
    }

    /// The numbers.
    pub fn as_slice(&self) -> &[u32]
        ensures { result.now ≡ self.now }
    {
        self.items.as_slice()
    }
}

impl PartialEq for NodeNumbers {
    ghost eq = { pointwise nat_eq };

    ghost laws = { Prim.search (comparing, rules) };

    fn eq(&self, other: &NodeNumbers) -> bool {
        self.as_slice() == other.as_slice()
    }
}

impl Eq for NodeNumbers {
    ghost laws = { Prim.search (comparing, rules) };
}

impl Hash for NodeNumbers {
    ghost hash_input = { fed.slice fed.u32 };

    ghost respects_eq = { Prim.search (comparing, rules) };

    fn hash<H: Hasher>(&self, state: &mut H) {
        self.as_slice().hash(state);
    }
}
