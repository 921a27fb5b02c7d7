ghost use Rattle.std.specs.Prelude.{◌≡◌, [], IfOk, option_and_then};
ghost use Rattle.std.specs.Option.{option_copied};
ghost use Rattle.larch_certificate_text.specs.EquationText.{adjust_sides, bare_cut, behind_equals, behind_left, begins_term, first_cut, lends, read_equation, read_term, rest_of, with_right};
ghost use Rattle.larch_certificate_reader.specs.MachineViews.{front_view};
ghost use Rattle.larch_certificate_text.specs.SymbolText.{read_leaf};
ghost use Rattle.larch_certificate_text.specs.TermText.{run, fresh};
ghost use Rattle.larch_certificate_reader.specs.Views.{pair_view};

use crate::leaf::read_leaf;
use crate::machine::read_front;
use crate::names::Names;
use larch_base::Memory;
use larch_certificate::{Coded, CodedEquation};
use larch_certificate_text::Here;

/// The term that the text is.
pub fn read_term(names: &mut Names, here: Here, text: &[u8]) -> Result<Option<Coded>, Memory>
    ensures { IfOk result (λ term. term ≡ read_term here text.now) }
{
    match read_front(names, here, text)? {
        Some((term, rest)) => {
            if rest.is_empty() {
                Ok(Some(term))
            } else {
                Ok(None)
            }
        }
        None => Ok(None),
    }
}

fn behind_equals(text: &[u8]) -> Option<&[u8]>
    ensures { option_copied result ≡ behind_equals text.now }
{
    match text {
        [b'=', b'=', rest @ ..] => Some(rest),
        _ => None,
    }
}

// The text before and behind the first two equality signs behind the first byte, if no parenthesis stands before.
fn first_cut(text: &[u8]) -> Option<(&[u8], &[u8])>
    ensures { pair_view result ≡ first_cut text.now }
{
    for i in 1..text.len() {
        if text[i] == b'(' {
            return None;
        }
        if let Some(rest) = behind_equals(&text[i..]) {
            return Some((&text[..i], rest));
        }
    }
    None
}

fn begins_term(text: &[u8]) -> bool
    ensures { result ≡ begins_term text.now }
{
    match text {
        [byte, ..] => *byte != b'(' && *byte != b'>',
        [] => false,
    }
}

fn lends(text: &[u8]) -> bool
    ensures { result ≡ lends text.now }
{
    match text {
        [byte, rest @ ..] => *byte == b'=' && begins_term(rest),
        [] => false,
    }
}

fn rest_of(text: &[u8]) -> &[u8]
    ensures { result.now ≡ rest_of text.now }
{
    match text {
        [_, rest @ ..] => rest,
        [] => text,
    }
}

fn adjust_sides<'a>(left: &'a [u8], right: &'a [u8]) -> (&'a [u8], &'a [u8])
    ensures { (result.0.now, result.1.now) ≡ adjust_sides (left.now, right.now) }
{
    if left == b"~".as_slice() && lends(right) {
        (b"~=", rest_of(right))
    } else {
        (left, right)
    }
}

fn bare_cut(text: &[u8]) -> Option<(&[u8], &[u8])>
    ensures { pair_view result ≡ bare_cut text.now }
{
    let (left, right) = first_cut(text)?;
    Some(adjust_sides(left, right))
}

fn with_right(
    names: &mut Names,
    here: Here,
    text: &[u8],
    left: Coded,
) -> Result<Option<CodedEquation>, Memory>
    ensures { IfOk result (λ e. e ≡ with_right here text.now left) }
{
    match read_term(names, here, text)? {
        Some(right) => Ok(Some(CodedEquation { left, right })),
        None => Ok(None),
    }
}

/// The equation that the text is.
pub fn read_equation(
    names: &mut Names,
    here: Here,
    text: &[u8],
) -> Result<Option<CodedEquation>, Memory>
    ensures { IfOk result (λ e. e ≡ read_equation here text.now) }
{
    match bare_cut(text) {
        Some((left, right)) => bare_equation(names, here, left, right),
        None => long_equation(names, here, text),
    }
}

fn bare_equation(
    names: &mut Names,
    here: Here,
    left: &[u8],
    right: &[u8],
) -> Result<Option<CodedEquation>, Memory>
    ensures { IfOk result (λ e. e ≡ option_and_then (with_right here right.now) (read_leaf here left.now)) }
{
    match read_leaf(names, here, left)? {
        Some(left) => with_right(names, here, right, left),
        None => Ok(None),
    }
}

fn long_equation(
    names: &mut Names,
    here: Here,
    text: &[u8],
) -> Result<Option<CodedEquation>, Memory>
    ensures { IfOk result (λ e. e ≡ option_and_then (behind_left here) (run here (fresh []) text.now)) }
{
    match read_front(names, here, text)? {
        Some((left, rest)) => match behind_equals(rest) {
            Some(right) => with_right(names, here, right, left),
            None => Ok(None),
        },
        None => Ok(None),
    }
}
