ghost use Rattle.std.specs.Prelude.{◌≡◌, ◌≢◌, ◌+◌, ◌^◌, ◌<◌};
ghost use Rattle.larch_base.specs.Position.{start_of_text, advance};

use std::fmt;

/// A position in a text: a line and a column, both from 1, counted in bytes. A line ends with a newline.
#[derive(Clone, Copy, Debug, PartialEq, Eq)]
pub struct Pos {
    pub line: u32,
    pub column: u32,
}

impl Pos {
    /// Where a text begins.
    pub fn start() -> Pos
        ensures { result ≡ start_of_text }
    {
        Pos { line: 1, column: 1 }
    }

    /// The position behind a byte that stands here. The line may not be at the top of `u32` where the byte is a
    /// newline, nor the column where it is another one.
    pub fn advance(self, byte: u8) -> Pos
        requires line { byte ≡ 10 → self.line + 1 < 2 ^ 32 }
        requires column { byte ≢ 10 → self.column + 1 < 2 ^ 32 }
        ensures { result ≡ advance self byte }
    {
        if byte == b'\n' {
            Pos {
                line: self.line + 1,
                column: 1,
            }
        } else {
            Pos {
                line: self.line,
                column: self.column + 1,
            }
        }
    }
}

impl fmt::Display for Pos {
    ghost use Rattle.std.specs.Prelude.{Some};
    ghost use Rattle.larch_base.specs.Position.{position_text};

    ghost output = { λ pos. Some (position_text pos) };

    fn fmt<W: fmt::Write>(&self, f: &mut fmt::Formatter<W>) -> fmt::Result {
        let line = self.line;
        let column = self.column;
        write!(f, "{line}:{column}")
    }
}
