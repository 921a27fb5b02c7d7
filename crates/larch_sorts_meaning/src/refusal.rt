ghost use Rattle.std.specs.Prelude.{◌≡◌};
ghost use Rattle.larch_sorts_meaning.specs.declared.refusal.ReadRefusal.TheVariants.{Memory as wants_memory};

use larch_base::{Memory, Pos};
use thiserror::Error;

/// Why an equation or a term isn't read, and where.
#[derive(Clone, Copy, Debug, PartialEq, Eq, Error)]
pub enum ReadRefusal {
    /// A sort of a qualification doesn't exist.
    #[error("unknown sort")]
    UnknownSort(Pos),
    /// A part has no reading.
    #[error("no reading")]
    NoReading(Pos),
    /// There are several readings.
    #[error("several readings")]
    Ambiguous(Pos),
    /// Out of memory.
    #[error("out of memory")]
    Memory,
}

impl From<Memory> for ReadRefusal {
    ghost from_gives = { λ _ refusal. refusal ≡ wants_memory };

    fn from(_memory: Memory) -> ReadRefusal {
        ReadRefusal::Memory
    }
}
