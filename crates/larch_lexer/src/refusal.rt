ghost use Rattle.std.specs.Prelude.{◌≡◌};
ghost use Rattle.larch_lexer.specs.declared.refusal.LexRefusal.TheVariants.{Memory as out_of_memory};

use larch_base::{Memory, Pos};
use thiserror::Error;

/// Why a text has no tokens.
#[derive(Clone, Copy, Debug, PartialEq, Eq, Error)]
pub enum LexRefusal {
    /// No token begins there.
    #[error("no token begins here")]
    Lex(Pos),
    /// Out of memory.
    #[error("out of memory")]
    Memory,
}

impl From<Memory> for LexRefusal {
    ghost from_gives = { λ _ refusal. refusal ≡ out_of_memory };

    fn from(_memory: Memory) -> LexRefusal {
        LexRefusal::Memory
    }
}
