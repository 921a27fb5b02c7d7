ghost use Rattle.std.specs.Prelude.{◌≡◌, ◌+◌, ◌<◌, ◌^◌, false, IfOk};
ghost use Rattle.larch_grammar.specs.Terminal.{terminal_of};
ghost use Rattle.larch_script.specs.Texts.{ends, plain, says, says_dashed, text_at, word_at};

use larch_base::Memory;
use larch_grammar::{Terminal, terminal_of};
use larch_lexer::Token;
use larch_raw::RawWord;

/// The text of the token at this index; nothing behind the last.
#[tactic(auto, using(crate::proofs::Places::got))]
pub(crate) fn text_at<'a>(tokens: &'a [Token], index: usize) -> &'a [u8]
    ensures { result.now ≡ text_at tokens.now index }
{
    match tokens.get(index) {
        Some(token) => token.text.bytes(),
        None => &[],
    }
}

/// Whether the token at this index has the text.
pub(crate) fn says(tokens: &[Token], index: usize, text: &[u8]) -> bool
    ensures { result ≡ says tokens.now index text.now }
{
    text_at(tokens, index) == text
}

/// Whether two words with a dash between them stand from this index on.
pub(crate) fn says_dashed(tokens: &[Token], index: usize, first: &[u8], second: &[u8]) -> bool
    requires { index + 2 < 2 ^ 64 }
    ensures { result ≡ says_dashed tokens.now index first.now second.now }
{
    says(tokens, index, first) && says(tokens, index + 1, b"-") && says(tokens, index + 2, second)
}

/// Whether so many tokens are all.
pub(crate) fn ends(tokens: &[Token], index: usize) -> bool
    ensures { result ≡ ends tokens.now index }
{
    tokens.len() == index
}

/// The word at this index, unless it is reserved.
#[tactic(auto, using(crate::proofs::Places::got))]
pub(crate) fn word_at(tokens: &[Token], index: usize) -> Result<Option<RawWord>, Memory>
    ensures { IfOk result (λ word. word ≡ word_at tokens.now index) }
{
    match tokens.get(index) {
        Some(token) => plain_word(token),
        None => Ok(None),
    }
}

/// The token as a word, unless it is reserved.
pub(crate) fn plain_word(token: &Token) -> Result<Option<RawWord>, Memory>
    ensures { IfOk result (λ word. word ≡ plain (terminal_of false token.now)) }
{
    match terminal_of(false, token)? {
        Terminal::Word(word) => Ok(Some(word)),
        _ => Ok(None),
    }
}
