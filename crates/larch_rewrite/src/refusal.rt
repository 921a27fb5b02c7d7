ghost use Rattle.std.specs.Prelude.{◌≡◌, if◌then◌else◌};
ghost use Rattle.larch_rewrite_step.specs.declared.refusal.ApplyRefusal.{ApplyRefusal};
ghost use Rattle.larch_store.specs.declared.refusal.StoreRefusal.{StoreRefusal};
ghost use Rattle.larch_rewrite.specs.Refusal.{from_application, from_store};
ghost use Rattle.larch_rewrite.specs.declared.refusal.RewriteRefusal.TheVariants.{Memory as wants_memory};

use larch_base::Memory;
use larch_rewrite_step::ApplyRefusal;
use larch_store::StoreRefusal;
use std::alloc::AllocFailed;
use thiserror::Error;

/// Why a term isn't normalised: the first event, or want of memory.
#[derive(Clone, Copy, Debug, PartialEq, Eq, Error)]
pub enum RewriteRefusal {
    /// A rule applies, and nothing is left of the budget.
    #[error("the rewriting limit is used up")]
    Limit,
    /// A term that is formed has more than 5,000 nodes.
    #[error("a term is too large")]
    TooLarge,
    /// Out of memory.
    #[error("out of memory")]
    Memory,
}

impl From<Memory> for RewriteRefusal {
    ghost from_gives = { λ _ refusal. refusal ≡ wants_memory };

    fn from(_memory: Memory) -> RewriteRefusal {
        RewriteRefusal::Memory
    }
}

impl<T: Drop> From<AllocFailed<T>> for RewriteRefusal {
    ghost from_gives = { λ _ refusal. refusal ≡ wants_memory };

    fn from(_failed: AllocFailed<T>) -> RewriteRefusal {
        RewriteRefusal::Memory
    }
}

impl From<ApplyRefusal> for RewriteRefusal {
    ghost from_gives = { λ given refusal. refusal ≡ from_application given };

    fn from(refusal: ApplyRefusal) -> RewriteRefusal {
        match refusal {
            ApplyRefusal::TooLarge => RewriteRefusal::TooLarge,
            ApplyRefusal::Memory => RewriteRefusal::Memory,
        }
    }
}

impl From<StoreRefusal> for RewriteRefusal {
    ghost from_gives = { λ given refusal. refusal ≡ from_store given };

    fn from(refusal: StoreRefusal) -> RewriteRefusal {
        match refusal {
            StoreRefusal::TooLarge => RewriteRefusal::TooLarge,
            StoreRefusal::Memory => RewriteRefusal::Memory,
        }
    }
}
