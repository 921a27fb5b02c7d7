ghost use Rattle.std.specs.Prelude.{◌≡◌};
ghost use Rattle.larch_traits_items.specs.declared.refusal.TraitRefusal.TheVariants.{Memory as wants_memory};

use larch_base::{Code, Memory, Pos};
use thiserror::Error;

/// Why a trait is refused, and where.
#[derive(Clone, Copy, Debug, PartialEq, Eq, Error)]
pub enum TraitRefusal {
    /// Something is wrong.
    #[error("wrong")]
    Wrong(Pos, Code),
    /// Out of memory.
    #[error("out of memory")]
    Memory,
}

impl From<Memory> for TraitRefusal {
    ghost from_gives = { λ _ refusal. refusal ≡ wants_memory };

    fn from(_memory: Memory) -> TraitRefusal {
        TraitRefusal::Memory
    }
}
