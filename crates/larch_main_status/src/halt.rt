ghost use Rattle.std.specs.Prelude.{◌≡◌};

use larch_base::Memory;
use std::alloc::AllocError;

/// Why no step was made, or nothing answered.
#[derive(Clone, Copy, Debug, PartialEq, Eq)]
pub enum Halt {
    /// The source failed before the next command was whole, or the folder.
    ReadFault,
    /// Out of memory.
    Memory,
}

impl From<Memory> for Halt {
    ghost use Rattle.larch_main_status.specs.declared.halt.Halt.TheVariants.{Memory as out_of_memory};

    ghost from_gives = { λ _ halt. halt ≡ out_of_memory };

    fn from(_memory: Memory) -> Halt {
        Halt::Memory
    }
}

impl From<AllocError> for Halt {
    ghost use Rattle.larch_main_status.specs.declared.halt.Halt.TheVariants.{Memory as out_of_memory};

    ghost from_gives = { λ _ halt. halt ≡ out_of_memory };

    fn from(_error: AllocError) -> Halt {
        Halt::Memory
    }
}
