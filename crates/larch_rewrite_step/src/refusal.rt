ghost use Rattle.std.specs.Prelude.{◌≡◌};
ghost use Rattle.larch_rewrite_step.specs.Applying.{from_store};
ghost use Rattle.larch_rewrite_step.specs.declared.refusal.ApplyRefusal.TheVariants.{Memory as wants_memory};

use larch_base::Memory;
use larch_store::StoreRefusal;
use thiserror::Error;

/// Why a rule isn't applied.
#[derive(Clone, Copy, Debug, PartialEq, Eq, Error)]
pub enum ApplyRefusal {
    /// What it makes has more than 5,000 nodes.
    #[error("a term is too large")]
    TooLarge,
    /// Out of memory.
    #[error("out of memory")]
    Memory,
}

impl From<Memory> for ApplyRefusal {
    ghost from_gives = { λ _ refusal. refusal ≡ wants_memory };

    fn from(_memory: Memory) -> ApplyRefusal {
        ApplyRefusal::Memory
    }
}

impl From<StoreRefusal> for ApplyRefusal {
    ghost from_gives = { λ given refusal. refusal ≡ from_store given };

    fn from(refusal: StoreRefusal) -> ApplyRefusal {
        match refusal {
            StoreRefusal::TooLarge => ApplyRefusal::TooLarge,
            StoreRefusal::Memory => ApplyRefusal::Memory,
        }
    }
}
