ghost use Rattle.std.specs.Prelude.{◌≡◌, ◌≤◌, length, IfSome};
ghost use Rattle.larch_lexer.specs.Piece.{further_of, stands_in, stands_in_word, stretch_length, piece_at};
ghost use Rattle.larch_lexer.specs.Piece.{piece_at_underscore, piece_at_backslash, piece_at_symbol};
ghost use Rattle.larch_lexer.specs.TokenTable.{begins_with, is_blank, is_punctuation, is_symbol};

use crate::token::Kind;

/// What stands at the front of a text. Each number counts the bytes behind the first.
#[derive(Clone, Copy)]
pub enum Piece {
    /// A blank or a comment.
    Skipped(usize),
    /// The longest token, which is kept.
    Kept(Kind, usize),
    /// No token begins there.
    Nothing,
}

/// Bytes that go on as they began.
#[derive(Clone, Copy)]
pub enum Stretch {
    /// The rest of a comment: up to the next newline.
    Comment,
    /// The rest of a word.
    Wordlike,
    /// The letters of a backslash word.
    Letters,
    /// The rest of a run.
    Symbols,
}

impl Piece {
    /// How many bytes it has behind its first one.
    pub fn further(self) -> Option<usize>
        ensures { result ≡ further_of self }
    {
        match self {
            Piece::Skipped(further) => Some(further),
            Piece::Kept(_kind, further) => Some(further),
            Piece::Nothing => None,
        }
    }
}

/// What a byte begins, where `rest` stands behind it.
pub fn piece_at(byte: u8, rest: &[u8]) -> Piece
    ensures piece { result ≡ piece_at byte rest.now }
    ensures within { IfSome (further_of result) (λ further. further ≤ length rest.now) }
{
    match byte {
        b'%' => Piece::Skipped(stretch_length(Stretch::Comment, rest)),
        b'_' => piece_at_underscore(rest),
        b'\\' => piece_at_backslash(rest),
        _ if byte.is_ascii_alphanumeric() => {
            Piece::Kept(Kind::Word, stretch_length(Stretch::Wordlike, rest))
        }
        _ if is_blank(byte) => Piece::Skipped(0),
        _ if is_symbol(byte) => piece_at_symbol(byte, rest),
        _ if is_punctuation(byte) => Piece::Kept(Kind::Punctuation, 0),
        _ => Piece::Nothing,
    }
}

fn piece_at_underscore(rest: &[u8]) -> Piece
    ensures piece { result ≡ piece_at_underscore rest.now }
    ensures within { IfSome (further_of result) (λ further. further ≤ length rest.now) }
{
    match rest {
        [b'_', ..] => Piece::Kept(Kind::Marker, 1),
        _ => Piece::Nothing,
    }
}

fn piece_at_backslash(rest: &[u8]) -> Piece
    ensures piece { result ≡ piece_at_backslash rest.now }
    ensures within { IfSome (further_of result) (λ further. further ≤ length rest.now) }
{
    let letters = stretch_length(Stretch::Letters, rest);
    if letters > 0 {
        return Piece::Kept(Kind::Backslash, letters);
    }
    match rest {
        [b'/', ..] => Piece::Kept(Kind::Connective, 1),
        _ => Piece::Nothing,
    }
}

fn piece_at_symbol(byte: u8, rest: &[u8]) -> Piece
    ensures piece { result ≡ piece_at_symbol byte rest.now }
    ensures within { IfSome (further_of result) (λ further. further ≤ length rest.now) }
{
    if byte == b'/' && begins_with(b'\\', rest) {
        Piece::Kept(Kind::Connective, 1)
    } else {
        Piece::Kept(Kind::Run, stretch_length(Stretch::Symbols, rest))
    }
}

/// How many bytes of the stretch stand at the front.
fn stretch_length(stretch: Stretch, bytes: &[u8]) -> usize
    ensures length { result ≡ stretch_length stretch bytes.now }
    ensures within { result ≤ length bytes.now }
{
    let mut length = 0;
    let mut rest = bytes;
    while let [byte, others @ ..] = rest {
        if !stands_in(stretch, *byte, others) {
            break;
        }
        length += 1;
        rest = others;
    }
    length
}

fn stands_in(stretch: Stretch, byte: u8, behind: &[u8]) -> bool
    ensures { result ≡ stands_in stretch byte behind.now }
{
    match stretch {
        Stretch::Comment => byte != b'\n',
        Stretch::Wordlike => stands_in_word(byte, behind),
        Stretch::Letters => byte.is_ascii_alphabetic(),
        Stretch::Symbols => is_symbol(byte) && !(byte == b'/' && begins_with(b'\\', behind)),
    }
}

fn stands_in_word(byte: u8, behind: &[u8]) -> bool
    ensures { result ≡ stands_in_word byte behind.now }
{
    match byte {
        b'_' => matches!(behind, [next, ..] if next.is_ascii_alphanumeric()),
        b'\'' => true,
        byte => byte.is_ascii_alphanumeric(),
    }
}

fn begins_with(byte: u8, bytes: &[u8]) -> bool
    ensures { result ≡ begins_with byte bytes.now }
{
    matches!(bytes, [first, ..] if *first == byte)
}

fn is_blank(byte: u8) -> bool
    ensures { result ≡ is_blank byte }
{
    matches!(byte, b'\t' | b'\n' | b'\r' | b' ')
}

fn is_punctuation(byte: u8) -> bool
    ensures { result ≡ is_punctuation byte }
{
    matches!(
        byte,
        b'(' | b')' | b'[' | b']' | b'{' | b'}' | b',' | b';' | b':' | b'.'
    )
}

/// Whether the byte may stand in a run.
fn is_symbol(byte: u8) -> bool
    ensures { result ≡ is_symbol byte }
{
    b"!#$&*+-/<=>?@^|~".contains(&byte)
}
