ghost use Rattle.std.specs.Prelude.{◌≡◌};
ghost use Rattle.larch_store.specs.declared.refusal.StoreRefusal.TheVariants.{Memory as wants_memory};

use larch_base::Memory;
use thiserror::Error;

/// Why a store doesn't take a term.
#[derive(Clone, Copy, Debug, PartialEq, Eq, Error)]
pub enum StoreRefusal {
    /// The term has more than 5,000 nodes.
    #[error("a term is too large")]
    TooLarge,
    /// Out of memory.
    #[error("out of memory")]
    Memory,
}

impl From<Memory> for StoreRefusal {
    ghost from_gives = { λ _ refusal. refusal ≡ wants_memory };

    fn from(_memory: Memory) -> StoreRefusal {
        StoreRefusal::Memory
    }
}
