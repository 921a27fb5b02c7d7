ghost use Rattle.std.proofs.Common.{ap};
ghost use Rattle.std.specs.Cmp.{decided, partial_equiv_from_equiv};
ghost use Rattle.larch_sorts_signature.specs.Places.{same_place, place_input, place_Decides};

use larch_term::Sort;
use std::hash::{Hash, Hasher};

/// A position among so many arguments, and the sort that an operator has there.
#[derive(Drop)]
pub(crate) struct Place {
    pub(crate) arity: usize,
    pub(crate) position: usize,
    pub(crate) sort: Sort,
}

impl PartialEq for Place {
    ghost eq = { same_place };

    ghost laws = { partial_equiv_from_equiv (decided same_place place_Decides) };

    fn eq(&self, other: &Place) -> bool {
        self.arity == other.arity && self.position == other.position && self.sort == other.sort
    }
}

impl Eq for Place {
    ghost laws = { decided same_place place_Decides };
}

impl Hash for Place {
    ghost hash_input = { place_input };

    ghost respects_eq = { λ p q e. ap place_input ((place_Decides p q).0 e) };

    fn hash<H: Hasher>(&self, state: &mut H) {
        self.arity.hash(state);
        self.position.hash(state);
        self.sort.hash(state);
    }
}
