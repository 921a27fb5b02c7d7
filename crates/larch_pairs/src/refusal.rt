ghost use Rattle.std.specs.Prelude.{◌≡◌};
ghost use Rattle.larch_pairs.specs.declared.refusal.PairRefusal.TheVariants.{Memory as wants_memory};

use larch_base::Memory;
use thiserror::Error;

/// Why there is no answer.
#[derive(Clone, Copy, Debug, PartialEq, Eq, Error)]
pub enum PairRefusal {
    /// A term has more than 5,000 nodes.
    #[error("a term is too large")]
    TooLarge,
    /// Out of memory.
    #[error("out of memory")]
    Memory,
}

impl From<Memory> for PairRefusal {
    ghost from_gives = { λ _ refusal. refusal ≡ wants_memory };

    fn from(_memory: Memory) -> PairRefusal {
        PairRefusal::Memory
    }
}
