ghost use Rattle.std.specs.Prelude.{◌≡◌};
ghost use Rattle.larch_prove_settings.specs.declared.refusal.CommandRefusal.TheVariants.{Memory as wants_memory};

use larch_base::{Code, Memory};
use std::alloc::AllocFailed;
use thiserror::Error;

/// Why a command isn't carried out.
#[derive(Clone, Copy, Debug, PartialEq, Eq, Error)]
pub enum CommandRefusal {
    /// It is refused with a code.
    #[error("the command is refused")]
    Wrong(Code),
    /// Out of memory.
    #[error("out of memory")]
    Memory,
}

impl From<Memory> for CommandRefusal {
    ghost from_gives = { λ _ refusal. refusal ≡ wants_memory };

    fn from(_memory: Memory) -> CommandRefusal {
        CommandRefusal::Memory
    }
}

impl<T: Drop> From<AllocFailed<T>> for CommandRefusal {
    ghost from_gives = { λ _ refusal. refusal ≡ wants_memory };

    fn from(_failed: AllocFailed<T>) -> CommandRefusal {
        CommandRefusal::Memory
    }
}
