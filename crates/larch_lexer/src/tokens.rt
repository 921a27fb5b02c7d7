ghost use Rattle.std.specs.Prelude.{◌≡◌};

use crate::token::Token;
use larch_base::{Pos, Sequence};
use std::marker::Model;

/// The tokens of a text, and the position where its next byte would stand. Contracts see both.
#[derive(Debug, Drop)]
pub struct Tokens {
    tokens: Sequence<Token>,
    end: Pos,
}

impl Model for Tokens {
    ghost use Rattle.larch_lexer.specs.TokenList.{TokenList};

    ghost Value = { TokenList };

    ghost view = { λ all. record { tokens = all.tokens; end = all.end } };
}

impl Tokens {
    /// These tokens of a text that ends there. It takes no memory.
    pub fn new(tokens: Sequence<Token>, end: Pos) -> Tokens
        ensures tokens { result.tokens ≡ tokens }
        ensures end { result.end ≡ end }
    {
        Tokens { tokens, end }
    }

    /// The tokens, in order.
    pub fn as_slice(&self) -> &[Token]
        ensures { result.now ≡ self.now.tokens }
    {
        self.tokens.as_slice()
    }

    /// Where the next byte of the text would stand.
    pub fn end(&self) -> Pos
        ensures { result ≡ self.now.end }
    {
        self.end
    }
}
