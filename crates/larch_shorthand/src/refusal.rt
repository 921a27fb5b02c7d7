ghost use Rattle.std.specs.Prelude.{◌≡◌};
ghost use Rattle.larch_shorthand.specs.declared.refusal.ExpandRefusal.TheVariants.{Memory as wants_memory};

use larch_base::{Memory, Pos};
use thiserror::Error;

/// Why a shorthand is refused, and where.
#[derive(Clone, Copy, Debug, PartialEq, Eq, Error)]
pub enum ExpandRefusal {
    /// An element or a field has the name of an earlier one.
    #[error("a name twice")]
    FieldTwice(Pos),
    /// An element would be a truth value.
    #[error("a truth value")]
    BuiltIn(Pos),
    /// Out of memory.
    #[error("out of memory")]
    Memory,
}

impl From<Memory> for ExpandRefusal {
    ghost from_gives = { λ _ refusal. refusal ≡ wants_memory };

    fn from(_memory: Memory) -> ExpandRefusal {
        ExpandRefusal::Memory
    }
}
