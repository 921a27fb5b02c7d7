ghost use Rattle.std.specs.Prelude.{◌≡◌};
ghost use Rattle.larch_complete_meaning.specs.declared.answer.CompletionAnswer.TheVariants.{TooLarge as is_too_large};
ghost use Rattle.larch_complete_rounds.specs.Halt.{from_pairing, from_rewriting};
ghost use Rattle.larch_complete_rounds.specs.declared.halt.Halt.TheVariants.{Memory as wants_memory};

use larch_base::Memory;
use larch_complete_meaning::CompletionAnswer;
use larch_pairs::PairRefusal;
use larch_rewrite::RewriteRefusal;
use std::alloc::AllocFailed;

/// Why a completion goes no further: it has come to its end, or memory has.
#[derive(Drop)]
pub enum Halt {
    /// It ends so.
    Ends(CompletionAnswer),
    /// Out of memory.
    Memory,
}

impl From<Memory> for Halt {
    ghost from_gives = { λ _ halt. halt ≡ wants_memory };

    fn from(_memory: Memory) -> Halt {
        Halt::Memory
    }
}

impl<T: Drop> From<AllocFailed<T>> for Halt {
    ghost from_gives = { λ _ halt. halt ≡ wants_memory };

    fn from(_failed: AllocFailed<T>) -> Halt {
        Halt::Memory
    }
}

impl From<RewriteRefusal> for Halt {
    ghost from_gives = { λ given halt. halt ≡ from_rewriting given };

    fn from(refusal: RewriteRefusal) -> Halt {
        match refusal {
            RewriteRefusal::Limit => Halt::Ends(CompletionAnswer::Limit),
            RewriteRefusal::TooLarge => Halt::Ends(CompletionAnswer::TooLarge),
            RewriteRefusal::Memory => Halt::Memory,
        }
    }
}

impl From<PairRefusal> for Halt {
    ghost from_gives = { λ given halt. halt ≡ from_pairing given };

    fn from(refusal: PairRefusal) -> Halt {
        match refusal {
            PairRefusal::TooLarge => Halt::Ends(CompletionAnswer::TooLarge),
            PairRefusal::Memory => Halt::Memory,
        }
    }
}
