ghost use Rattle.std.specs.Prelude.{◌≡◌, ◌∷◌, [], false, IfOk};
ghost use Rattle.larch_grammar.specs.Terminal.{begins_reserved, claim_word, ends_reference, head_word, position_of, punctuation_terminal, run_terminal};
ghost use Rattle.larch_grammar.specs.Terminal.{term_word, terminal_by, terminal_of, word_terminal};
ghost use Rattle.larch_lexer.specs.declared.token.Kind.TheVariants.{Backslash};

use larch_base::{Memory, Name, Pos};
use larch_lexer::{Kind, Token};
use larch_raw::RawWord;

/// The two kinds of brackets.
#[derive(Clone, Copy, Debug, PartialEq, Eq)]
pub enum Bracket {
    /// `[` and `]`.
    Square,
    /// `{` and `}`.
    Curly,
}

/// A token as the grammar knows it, with its position where a tree takes it.
#[derive(Debug, Drop)]
pub enum Terminal {
    /// A word that isn't reserved.
    Word(RawWord),
    /// A run or a backslash word with no meaning of its own.
    Symbol(RawWord),
    /// `~`.
    Not(RawWord),
    /// `/\`, `\/`, `=>` or `<=>`.
    Connective(RawWord),
    /// `=` or `~=`.
    Equality(RawWord),
    /// `==`.
    Equates(Pos),
    /// `->`.
    Arrow,
    /// `:`.
    Colon(Pos),
    /// `,`.
    Comma,
    /// `;`.
    Semicolon,
    /// `.`.
    Dot(Pos),
    /// `__`.
    Marker(Pos),
    /// `(`.
    Open(Pos),
    /// `)`.
    Close,
    /// `[` or `{`.
    OpenBracket(Bracket, Pos),
    /// `]` or `}`.
    CloseBracket(Bracket),
    /// `\forall`.
    ForAll,
    /// `trait`.
    Trait,
    /// `introduces`.
    Introduces,
    /// `asserts`.
    Asserts,
    /// `implies`, and whether references follow it.
    Implies(bool),
    /// `converts`.
    Converts,
    /// `exempting`.
    Exempting,
    /// `generated`.
    Generated,
    /// `partitioned`.
    Partitioned,
    /// `by`.
    By,
    /// `includes`.
    Includes,
    /// `assumes`.
    Assumes,
    /// `for`.
    For,
    /// `enumeration`.
    Enumeration,
    /// `tuple`.
    Tuple,
    /// `union`.
    Union,
    /// `of`.
    Of,
    /// `if`.
    If(Pos),
    /// `then`.
    Then,
    /// `else`.
    Else,
    /// A token that stands nowhere in the grammar.
    Other,
}

/// What the grammar knows of a token, where references follow `implies` or not. It fails where memory runs out.
#[tactic(auto, using(crate::proofs::Punctuation::not_one_byte))]
pub fn terminal_of(lists: bool, token: &Token) -> Result<Terminal, Memory>
    ensures { IfOk result (λ terminal. terminal ≡ terminal_of lists token.now) }
{
    match token.kind {
        Kind::Word => word_terminal(lists, &token.text, token.pos),
        Kind::Marker => Ok(Terminal::Marker(token.pos)),
        Kind::Backslash => backslash_terminal(&token.text, token.pos),
        Kind::Connective => {
            let word = raw_word(&token.text, token.pos)?;
            Ok(Terminal::Connective(word))
        }
        Kind::Run => run_terminal(&token.text, token.pos),
        Kind::Punctuation => Ok(match token.text.bytes() {
            [byte] => punctuation_terminal(*byte, token.pos),
            _ => Terminal::Other,
        }),
    }
}

// The text of a token with its position.
fn raw_word(text: &Name, pos: Pos) -> Result<RawWord, Memory>
    ensures name { IfOk result (λ word. word.name ≡ text.now) }
    ensures pos { IfOk result (λ word. word.pos ≡ pos) }
{
    let name = text.copy()?;
    Ok(RawWord { name, pos })
}

// A token of kind word.
#[tactic(auto, using(crate::proofs::Reserved::plain_word))]
fn word_terminal(lists: bool, text: &Name, pos: Pos) -> Result<Terminal, Memory>
    ensures { IfOk result (λ terminal. terminal ≡ word_terminal lists text.now pos) }
{
    if !begins_reserved(text.bytes()) {
        let word = raw_word(text, pos)?;
        return Ok(Terminal::Word(word));
    }
    reserved_word(lists, text, pos)
}

// Whether a text begins with two small letters, as each reserved word does.
fn begins_reserved(text: &[u8]) -> bool
    ensures { result ≡ begins_reserved text.now }
{
    match text {
        [first, second, ..] => first.is_ascii_lowercase() && second.is_ascii_lowercase(),
        _ => false,
    }
}

// A word of the parts of a trait, or one of those below.
fn reserved_word(lists: bool, text: &Name, pos: Pos) -> Result<Terminal, Memory>
    ensures { IfOk result (λ terminal. terminal ≡ word_terminal lists text.now pos) }
{
    let bytes = text.bytes();
    if bytes == b"trait".as_slice() {
        Ok(Terminal::Trait)
    } else if bytes == b"introduces".as_slice() {
        Ok(Terminal::Introduces)
    } else if bytes == b"asserts".as_slice() {
        Ok(Terminal::Asserts)
    } else if bytes == b"generated".as_slice() {
        Ok(Terminal::Generated)
    } else if bytes == b"partitioned".as_slice() {
        Ok(Terminal::Partitioned)
    } else if bytes == b"by".as_slice() {
        Ok(Terminal::By)
    } else {
        head_word(lists, text, pos)
    }
}

// A word of shorthands and references, or one of those below.
fn head_word(lists: bool, text: &Name, pos: Pos) -> Result<Terminal, Memory>
    ensures { IfOk result (λ terminal. terminal ≡ head_word lists text.now pos) }
{
    let bytes = text.bytes();
    if bytes == b"includes".as_slice() {
        Ok(Terminal::Includes)
    } else if bytes == b"assumes".as_slice() {
        Ok(Terminal::Assumes)
    } else if bytes == b"for".as_slice() {
        Ok(Terminal::For)
    } else if bytes == b"enumeration".as_slice() {
        Ok(Terminal::Enumeration)
    } else if bytes == b"tuple".as_slice() {
        Ok(Terminal::Tuple)
    } else if bytes == b"union".as_slice() {
        Ok(Terminal::Union)
    } else if bytes == b"of".as_slice() {
        Ok(Terminal::Of)
    } else {
        claim_word(lists, text, pos)
    }
}

// A word of what a trait is said to imply and to convert, or one of those below.
fn claim_word(lists: bool, text: &Name, pos: Pos) -> Result<Terminal, Memory>
    ensures { IfOk result (λ terminal. terminal ≡ claim_word lists text.now pos) }
{
    let bytes = text.bytes();
    if bytes == b"implies".as_slice() {
        Ok(Terminal::Implies(lists))
    } else if bytes == b"converts".as_slice() {
        Ok(Terminal::Converts)
    } else if bytes == b"exempting".as_slice() {
        Ok(Terminal::Exempting)
    } else {
        term_word(text, pos)
    }
}

// A word of terms, or one that isn't reserved.
fn term_word(text: &Name, pos: Pos) -> Result<Terminal, Memory>
    ensures { IfOk result (λ terminal. terminal ≡ term_word text.now pos) }
{
    let bytes = text.bytes();
    if bytes == b"if".as_slice() {
        Ok(Terminal::If(pos))
    } else if bytes == b"then".as_slice() {
        Ok(Terminal::Then)
    } else if bytes == b"else".as_slice() {
        Ok(Terminal::Else)
    } else {
        let word = raw_word(text, pos)?;
        Ok(Terminal::Word(word))
    }
}

// A backslash word: `\forall`, or a symbol.
fn backslash_terminal(text: &Name, pos: Pos) -> Result<Terminal, Memory>
    ensures { IfOk result (λ terminal. terminal ≡ terminal_by false Backslash text.now pos) }
{
    if text.bytes() == b"\\forall".as_slice() {
        Ok(Terminal::ForAll)
    } else {
        let word = raw_word(text, pos)?;
        Ok(Terminal::Symbol(word))
    }
}

// A run: one with a meaning of its own, or a symbol.
fn run_terminal(text: &Name, pos: Pos) -> Result<Terminal, Memory>
    ensures { IfOk result (λ terminal. terminal ≡ run_terminal text.now pos) }
{
    let bytes = text.bytes();
    if bytes == b"->".as_slice() {
        return Ok(Terminal::Arrow);
    }
    if bytes == b"==".as_slice() {
        return Ok(Terminal::Equates(pos));
    }
    let word = raw_word(text, pos)?;
    if bytes == b"=".as_slice() || bytes == b"~=".as_slice() {
        Ok(Terminal::Equality(word))
    } else if bytes == b"~".as_slice() {
        Ok(Terminal::Not(word))
    } else if bytes == b"=>".as_slice() || bytes == b"<=>".as_slice() {
        Ok(Terminal::Connective(word))
    } else {
        Ok(Terminal::Symbol(word))
    }
}

// A byte of punctuation.
fn punctuation_terminal(byte: u8, pos: Pos) -> Terminal
    ensures { result ≡ punctuation_terminal (byte ∷ []) pos }
{
    match byte {
        b':' => Terminal::Colon(pos),
        b',' => Terminal::Comma,
        b';' => Terminal::Semicolon,
        b'.' => Terminal::Dot(pos),
        b'(' => Terminal::Open(pos),
        b')' => Terminal::Close,
        b'[' => Terminal::OpenBracket(Bracket::Square, pos),
        b']' => Terminal::CloseBracket(Bracket::Square),
        b'{' => Terminal::OpenBracket(Bracket::Curly, pos),
        b'}' => Terminal::CloseBracket(Bracket::Curly),
        _ => Terminal::Other,
    }
}

/// Where a token stands that can begin an equation.
pub fn position_of(terminal: &Terminal) -> Pos
    ensures { result ≡ position_of terminal.now }
{
    match terminal {
        Terminal::Word(word) | Terminal::Symbol(word) | Terminal::Not(word) => word.pos,
        Terminal::Open(pos) | Terminal::OpenBracket(_, pos) | Terminal::If(pos) => *pos,
        _ => Pos::start(),
    }
}

/// Whether a list of references ends before this token or goes on with it: so it does before `,`, `\forall`, words and
/// reserved words.
pub fn ends_reference(terminal: &Terminal) -> bool
    ensures { result ≡ ends_reference terminal.now }
{
    match terminal {
        Terminal::Symbol(_) | Terminal::Not(_) | Terminal::Connective(_) | Terminal::Equality(_) =>
            false,
        Terminal::Equates(_) | Terminal::Arrow | Terminal::Colon(_) | Terminal::Semicolon => false,
        Terminal::Dot(_) | Terminal::Marker(_) | Terminal::Open(_) | Terminal::Close => false,
        Terminal::OpenBracket(_, _) | Terminal::CloseBracket(_) | Terminal::Other => false,
        _ => true,
    }
}
