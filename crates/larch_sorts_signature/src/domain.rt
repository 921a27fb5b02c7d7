ghost use Rattle.std.specs.Prelude.{◌≡◌, ◌++◌, ◌∷◌, [], bytes_eq, IfOk};
ghost use Rattle.std.proofs.Common.{ap};
ghost use Rattle.std.specs.Cmp.{decided, partial_equiv_from_equiv};
ghost use Rattle.std.specs.Cmp.Lexicographic.{pointwise};
ghost use Rattle.std.specs.Hash as fed;
ghost use Rattle.larch_term.specs.OperatorKey.{sorts_Decides};

use larch_base::{Memory, Sequence};
use larch_term::{Sort, Sorts};
use std::alloc::Global;
use std::hash::{Hash, Hasher};
use std::marker::Model;

/// The sorts of all arguments. Contracts see them as a list.
#[derive(Drop)]
pub(crate) struct Domain {
    sorts: Sorts,
}

impl Model for Domain {
    ghost use Rattle.std.specs.Prelude.{List, ℕ};

    ghost Value = { List (List ℕ) };

    ghost view = { λ domain. domain.sorts };
}

impl Domain {
    // No sorts.
    pub(crate) fn empty(alloc: Global) -> Domain
        ensures { result ≡ [] }
    {
        Domain {
            sorts: Sequence::new(alloc),
        }
    }

    // These sorts.
    pub(crate) fn of(alloc: Global, sorts: &[Sort]) -> Result<Domain, Memory>
        ensures { IfOk result (λ domain. domain ≡ sorts.now) }
    {
        let mut copies = Vec::with_capacity(alloc, sorts.len())?;
        for sort in sorts {
            let copied = sort.copy()?;
            copies.push(copied)?;
        }
        Ok(Domain {
            sorts: Sequence::from_vec(copies),
        })
    }

    // The same with a sort behind it.
    pub(crate) fn with(&self, alloc: Global, sort: &Sort) -> Result<Domain, Memory>
        ensures { IfOk result (λ domain. domain ≡ self.now ++ sort.now ∷ []) }
    {
        let mut longer = Domain::of(alloc, self.sorts.as_slice())?;
        let sort = sort.copy()?;
        longer.sorts.push(sort)?;
        Ok(longer)
    }
}

impl PartialEq for Domain {
    ghost eq = { pointwise bytes_eq };

    ghost laws = { partial_equiv_from_equiv (decided (pointwise bytes_eq) sorts_Decides) };

    fn eq(&self, other: &Domain) -> bool {
        self.sorts.as_slice() == other.sorts.as_slice()
    }
}

impl Eq for Domain {
    ghost laws = { decided (pointwise bytes_eq) sorts_Decides };
}

impl Hash for Domain {
    ghost hash_input = { fed.slice (fed.slice fed.u8) };

    ghost respects_eq = { λ p q e. ap (fed.slice (fed.slice fed.u8)) ((sorts_Decides p q).0 e) };

    fn hash<H: Hasher>(&self, state: &mut H) {
        self.sorts.as_slice().hash(state);
    }
}
