ghost use Rattle.std.specs.Prelude.{◌≡◌, nat_eq};
ghost use Rattle.std.proofs.Common.{rules};
ghost use Rattle.std.specs.Cmp.Lexicographic.{pointwise};
ghost use Rattle.std.specs.Cmp.Rules.{comparing};
ghost use Rattle.std.specs.Hash as fed;
ghost use Rattle.larch_verify_pool.specs.Alike.{sorts_alike};

use larch_base::Name;
use std::hash::{Hash, Hasher};
use std::marker::Model;

/// Sorts, in order, as a key of tables. Contracts see them as a list.
#[derive(Drop)]
pub struct SortList {
    items: Vec<Name>,
}

impl Model for SortList {
    ghost use Rattle.std.specs.Prelude.{List, ℕ};

    ghost Value = { List (List ℕ) };

    ghost view = { λ sorts. sorts.items.items };
}

impl SortList {
    /// These sorts. It takes no memory.
    pub fn from_vec(items: Vec<Name>) -> SortList
        ensures { result ≡ items.items }
    {
        SortList { items }
    }

    /// The sorts.
    pub fn as_slice(&self) -> &[Name]
        ensures { result.now ≡ self.now }
    {
        self.items.as_slice()
    }
}

impl PartialEq for SortList {
    ghost eq = { pointwise (pointwise nat_eq) };

    ghost laws = { Prim.search (comparing, rules) };

    fn eq(&self, other: &SortList) -> bool {
        self.as_slice() == other.as_slice()
    }
}

impl Eq for SortList {
    ghost laws = { Prim.search (comparing, rules) };
}

impl Hash for SortList {
    ghost hash_input = { fed.slice (fed.slice fed.u8) };

    ghost respects_eq = { sorts_alike.fed };

    fn hash<H: Hasher>(&self, state: &mut H) {
        self.as_slice().hash(state);
    }
}

/// The name of an operator: bytes, or two numbers for a constant of a box.
#[derive(Drop, PartialEq, Eq, Hash)]
pub enum SymbolName {
    /// A name that is bytes.
    Plain(Name),
    /// A constant of a box: the box's number and its own.
    Boxed(u64, u64),
}

/// An operator: its name, its domain sorts and its range sort.
#[derive(Drop, PartialEq, Eq, Hash)]
pub struct PoolSymbol {
    pub name: SymbolName,
    pub domain: SortList,
    pub range: Name,
}
