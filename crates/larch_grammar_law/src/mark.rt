ghost use Rattle.std.specs.Prelude.{◌≡◌};
ghost use Rattle.larch_grammar_law.specs.Mark.{is_deep, is_head, is_mixed, is_outside, admission};

use larch_base::limits::MAX_HEAD_TOKENS;

/// What is counted at a token.
#[derive(Clone, Copy, Debug, PartialEq, Eq)]
pub enum Mark {
    /// Nothing.
    Plain,
    /// Nothing, and head tokens are counted anew behind it: the token stands outside all equations.
    Outside,
    /// A head token.
    Head,
    /// A construct opens, and whether it is one too many.
    Opens(bool),
    /// The same at a head token.
    OpensHead(bool),
    /// A head token that continues a chain of symbols, and whether its symbol is another than the chain's.
    Chained(bool),
}

/// Why a text is refused at a position.
#[derive(Clone, Copy, Debug, PartialEq, Eq)]
pub enum Flaw {
    /// Different symbols of one chain without parentheses.
    Mixed,
    /// No text of the grammar goes on so.
    Syntax,
    /// Too many constructs are open.
    Deep,
    /// Too many head tokens.
    Large,
}

impl Mark {
    /// Whether the token continues a chain with another symbol.
    pub fn is_mixed(self) -> bool
        ensures { result ≡ is_mixed self }
    {
        match self {
            Mark::Chained(mixed) => mixed,
            _ => false,
        }
    }

    /// Whether it opens a construct too many.
    pub fn is_deep(self) -> bool
        ensures { result ≡ is_deep self }
    {
        match self {
            Mark::Opens(deep) | Mark::OpensHead(deep) => deep,
            _ => false,
        }
    }

    /// Whether head tokens are counted anew behind it.
    pub fn is_outside(self) -> bool
        ensures { result ≡ is_outside self }
    {
        matches!(self, Mark::Outside)
    }

    /// Whether it is a head token.
    pub fn is_head(self) -> bool
        ensures { result ≡ is_head self }
    {
        match self {
            Mark::Plain | Mark::Outside | Mark::Opens(_) => false,
            Mark::Head | Mark::OpensHead(_) | Mark::Chained(_) => true,
        }
    }
}

/// How many head tokens there are behind a token, of which there are so many before it, or the flaw that its
/// mark makes.
pub fn admit(heads: u32, mark: Mark) -> Result<u32, Flaw>
    ensures { result ≡ admission heads mark }
{
    if mark.is_mixed() {
        Err(Flaw::Mixed)
    } else if mark.is_deep() {
        Err(Flaw::Deep)
    } else if mark.is_outside() {
        Ok(0)
    } else if !mark.is_head() {
        Ok(heads)
    } else if heads < MAX_HEAD_TOKENS {
        Ok(heads + 1)
    } else {
        Err(Flaw::Large)
    }
}
