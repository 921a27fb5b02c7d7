ghost use Rattle.std.specs.Prelude.{◌≡◌};
ghost use Rattle.larch_syntax.specs.Refusal.{refusal_of};
ghost use Rattle.larch_syntax.specs.declared.refusal.SyntaxRefusal.TheVariants.{Memory as wants_memory};

use larch_base::{Memory, Pos};
use larch_grammar_law::Flaw;
use thiserror::Error;

/// Why tokens are no trait, and where.
#[derive(Clone, Copy, Debug, PartialEq, Eq, Error)]
pub enum SyntaxRefusal {
    /// The tokens before this position begin a text of the grammar and those up to it begin none; or the text ends
    /// here, begins one and is none.
    #[error("no text of the grammar goes on so")]
    Syntax(Pos),
    /// The symbol here stands behind another symbol of its level, without parentheses between them.
    #[error("different symbols of one chain without parentheses")]
    Mixed(Pos),
    /// What opens here is open inside 200 parentheses, brackets and `if`s already.
    #[error("too many constructs are open")]
    Deep(Pos),
    /// The head token here is number 5,001 of its equation.
    #[error("too many head tokens in one equation")]
    Large(Pos),
    /// Out of memory.
    #[error("out of memory")]
    Memory,
}

impl From<Memory> for SyntaxRefusal {
    ghost from_gives = { λ _ refusal. refusal ≡ wants_memory };

    fn from(_memory: Memory) -> SyntaxRefusal {
        SyntaxRefusal::Memory
    }
}

// The refusal by this flaw at this position.
pub(crate) fn refusal_of(flaw: Flaw, pos: Pos) -> SyntaxRefusal
    ensures { result ≡ refusal_of flaw pos }
{
    match flaw {
        Flaw::Mixed => SyntaxRefusal::Mixed(pos),
        Flaw::Syntax => SyntaxRefusal::Syntax(pos),
        Flaw::Deep => SyntaxRefusal::Deep(pos),
        Flaw::Large => SyntaxRefusal::Large(pos),
    }
}
