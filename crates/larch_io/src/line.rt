ghost use Rattle.std.specs.Prelude.{◌≡◌};

use std::marker::Model;

/// A line without its newline. Contracts see it as its bytes.
#[derive(Debug, Drop)]
pub struct TextLine {
    bytes: Vec<u8>,
}

impl Model for TextLine {
    ghost use Rattle.std.specs.Prelude.{List, ℕ};

    ghost Value = { List ℕ };

    ghost view = { λ line. line.bytes.items };
}

impl TextLine {
    /// These bytes as a line. It takes no memory.
    pub(crate) fn from_vec(bytes: Vec<u8>) -> TextLine
        ensures { result ≡ bytes.items }
    {
        TextLine { bytes }
    }

    /// The bytes.
    pub fn bytes(&self) -> &[u8]
        ensures { result.now ≡ self.now }
    {
        self.bytes.as_slice()
    }
}
