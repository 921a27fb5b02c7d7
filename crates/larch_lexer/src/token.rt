use larch_base::{Name, Pos};

/// What a token is.
#[derive(Clone, Copy, Debug, PartialEq, Eq)]
pub enum Kind {
    /// A letter or digit, then letters, digits, `'`, and `_` before a letter or digit. Reserved words too.
    Word,
    /// `__`.
    Marker,
    /// A backslash and letters.
    Backslash,
    /// `/\` or `\/`.
    Connective,
    /// Symbol bytes, as `->`, `==` or `+`.
    Run,
    /// A bracket, a comma, a semicolon, a colon or a dot.
    Punctuation,
}

/// A token of a text: its slice of the text, and the position where it begins.
#[derive(Debug, Drop)]
pub struct Token {
    pub kind: Kind,
    pub text: Name,
    pub pos: Pos,
}
