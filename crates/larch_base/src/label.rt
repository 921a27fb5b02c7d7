ghost use Rattle.std.specs.Prelude.{◌≡◌, option_and_then};
ghost use Rattle.std.specs.Option.{option_map};
ghost use Rattle.larch_base.specs.Label.{behind, label_number, read_label};

use crate::number::read_number;
use std::fmt;

/// The label of an obligation: its kind, and its number among those of the kind, from 1.
#[derive(Clone, Copy, Debug, PartialEq, Eq)]
pub enum Label {
    /// An assumed statement of an included trait.
    Assume(u32),
    /// An implied statement.
    Imply(u32),
    /// A converted operator.
    Convert(u32),
}

impl fmt::Display for Label {
    ghost use Rattle.std.specs.Prelude.{Some};
    ghost use Rattle.larch_base.specs.Label.{label_text};

    ghost output = { λ label. Some (label_text label) };

    fn fmt<W: fmt::Write>(&self, f: &mut fmt::Formatter<W>) -> fmt::Result {
        match self {
            Label::Assume(number) => write!(f, "assume.{number}"),
            Label::Imply(number) => write!(f, "imply.{number}"),
            Label::Convert(number) => write!(f, "convert.{number}"),
        }
    }
}

/// The label that a word is, if it is one: the kind, a dot and a number from 1 of at most six digits. It takes no
/// memory.
pub fn read_label(word: &[u8]) -> Option<Label>
    ensures { result ≡ read_label word.now }
{
    if let Some(number) = number_behind(b"assume.", word) {
        return Some(Label::Assume(number));
    }
    if let Some(number) = number_behind(b"imply.", word) {
        return Some(Label::Imply(number));
    }
    let number = number_behind(b"convert.", word)?;
    Some(Label::Convert(number))
}

// The number that stands behind a beginning.
fn number_behind(beginning: &[u8], word: &[u8]) -> Option<u32>
    ensures { result ≡ option_and_then label_number (behind beginning.now word.now) }
{
    let digits = behind(beginning, word)?;
    label_number(digits)
}

// The number of a label.
fn label_number(digits: &[u8]) -> Option<u32>
    ensures { result ≡ label_number digits.now }
{
    let number = read_number(digits, 999_999)?;
    if 0 < number { Some(number) } else { None }
}

// What stands behind a beginning.
fn behind<'a>(beginning: &[u8], word: &'a [u8]) -> Option<&'a [u8]>
    ensures { option_map (λ rest. rest.now) result ≡ behind beginning.now word.now }
{
    if beginning.len() <= word.len() && &word[..beginning.len()] == beginning {
        Some(&word[beginning.len()..])
    } else {
        None
    }
}
