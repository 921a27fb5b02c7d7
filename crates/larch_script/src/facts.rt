ghost use Rattle.std.specs.Prelude.{◌≡◌, ◌+◌, ◌≤◌, ◌<◌, ◌^◌, IfSome};
ghost use Rattle.larch_script.specs.Facts.{fact_at, letter_of, fact_name, part_of, whole_fact_at, with_part};

use crate::numbers::number_of;
use crate::tokens::{ends, says, text_at};
use larch_base::{FactLetter, FactName};
use larch_lexer::Token;

/// The fact that is named at this index, with the index after it.
pub(crate) fn fact_at(tokens: &[Token], index: usize) -> Option<(FactName, usize)>
    requires { index + 3 < 2 ^ 64 }
    ensures fact { result ≡ fact_at tokens.now index }
    ensures near { IfSome result (λ found. found.1 ≤ index + 3) }
{
    let fact = fact_name(text_at(tokens, index))?;
    with_part(tokens, index, fact)
}

/// The fact that is all that stands from this index on.
pub(crate) fn whole_fact_at(tokens: &[Token], index: usize) -> Option<FactName>
    requires { index + 3 < 2 ^ 64 }
    ensures { result ≡ whole_fact_at tokens.now index }
{
    let (fact, behind) = fact_at(tokens, index)?;
    if ends(tokens, behind) {
        Some(fact)
    } else {
        None
    }
}

// A part of a fact that is named at this index, with the index after it.
fn with_part(tokens: &[Token], index: usize, fact: FactName) -> Option<(FactName, usize)>
    requires { index + 3 < 2 ^ 64 }
    ensures fact { result ≡ with_part tokens.now index fact }
    ensures near { IfSome result (λ found. found.1 ≤ index + 3) }
{
    if !says(tokens, index + 1, b".") {
        return Some((fact, index + 1));
    }
    let part = number_of(text_at(tokens, index + 2))?;
    Some((part_of(fact, part), index + 3))
}

fn part_of(fact: FactName, part: u32) -> FactName
    ensures { result ≡ part_of fact part }
{
    FactName {
        letter: fact.letter,
        number: fact.number,
        part,
    }
}

// The first part of a fact, by its letter and its number.
fn fact_name(text: &[u8]) -> Option<FactName>
    ensures { result ≡ fact_name text.now }
{
    let [byte, digits @ ..] = text else {
        return None;
    };
    let letter = letter_of(*byte)?;
    let number = number_of(digits)?;
    Some(FactName {
        letter,
        number,
        part: 1,
    })
}

fn letter_of(byte: u8) -> Option<FactLetter>
    ensures { result ≡ letter_of byte }
{
    match byte {
        b'A' => Some(FactLetter::Axiom),
        b'L' => Some(FactLetter::Lemma),
        b'H' => Some(FactLetter::Hypothesis),
        b'D' => Some(FactLetter::Derived),
        _ => None,
    }
}
