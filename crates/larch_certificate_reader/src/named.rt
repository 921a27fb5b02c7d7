ghost use Rattle.std.specs.Prelude.{◌≡◌, IfOk};
ghost use Rattle.std.specs.Option.{option_copied};
ghost use Rattle.larch_certificate_text.specs.LineText.{goal_part, number_part, operators_part, place_part};
ghost use Rattle.larch_certificate_text.specs.LineText.{ref_part, refs_part, sort_part};
ghost use Rattle.larch_certificate_text.specs.LineText.{term_part, variable_part};
ghost use Rattle.larch_certificate_text.specs.ListText.{part, read_listed, without_label};

use crate::equation::{read_equation, read_term};
use crate::list::{Counted, Item, read_list, read_numbers, read_variable, read_word};
use crate::names::Names;
use crate::parts::{cut_at, read_number, read_ref};
use larch_base::{Memory, Name, Sequence};
use larch_certificate::{Coded, CodedEquation, CodedVar, Numbers, Path};
use larch_certificate_text::Here;

fn without_label<'a>(here: Here, label: &[u8], text: &'a [u8]) -> Option<&'a [u8]>
    ensures { option_copied result ≡ without_label here label.now text.now }
{
    if !here.relative {
        return Some(text);
    }
    let (name, rest) = cut_at(b'=', text)?;
    if name == label { Some(rest) } else { None }
}

/// The number that a named part is.
pub fn number_part(here: Here, label: &[u8], text: &[u8]) -> Option<u64>
    ensures { result ≡ number_part here label.now text.now }
{
    let text = without_label(here, label, text)?;
    read_number(text)
}

/// The line or box that a named part names.
pub fn ref_part(here: Here, label: &[u8], text: &[u8]) -> Option<u64>
    ensures { result ≡ ref_part here label.now text.now }
{
    let text = without_label(here, label, text)?;
    read_ref(here, text)
}

/// The term of a part.
pub fn term_part(names: &mut Names, here: Here, text: &[u8]) -> Result<Option<Coded>, Memory>
    ensures { IfOk result (λ term. term ≡ term_part here text.now) }
{
    match without_label(here, b"term", text) {
        Some(text) => read_term(names, here, text),
        None => Ok(None),
    }
}

/// The sort of a part.
pub fn sort_part(names: &mut Names, here: Here, text: &[u8]) -> Result<Option<Name>, Memory>
    ensures { IfOk result (λ sort. sort ≡ sort_part here text.now) }
{
    match without_label(here, b"sort", text) {
        Some(text) => read_word(names, text),
        None => Ok(None),
    }
}

/// The variable of a part.
pub fn variable_part(names: &mut Names, here: Here, text: &[u8]) -> Result<Option<CodedVar>, Memory>
    ensures { IfOk result (λ variable. variable ≡ variable_part here text.now) }
{
    match without_label(here, b"var", text) {
        Some(text) => read_variable(names, text),
        None => Ok(None),
    }
}

/// The equation of a part.
pub fn goal_part(
    names: &mut Names,
    here: Here,
    text: &[u8],
) -> Result<Option<CodedEquation>, Memory>
    ensures { IfOk result (λ goal. goal ≡ goal_part here text.now) }
{
    match without_label(here, b"goal", text) {
        Some(text) => read_equation(names, here, text),
        None => Ok(None),
    }
}

/// The place of a part.
pub fn place_part(names: &mut Names, here: Here, text: &[u8]) -> Result<Option<Path>, Memory>
    ensures { IfOk result (λ place. place ≡ place_part here text.now) }
{
    match without_label(here, b"at", text) {
        Some(text) => read_numbers(names, here, Counted::Argument, b'.', text),
        None => Ok(None),
    }
}

/// The lines or boxes that a named part lists.
pub fn refs_part(
    names: &mut Names,
    here: Here,
    label: &[u8],
    text: &[u8],
) -> Result<Option<Numbers>, Memory>
    ensures { IfOk result (λ numbers. numbers ≡ refs_part here label.now text.now) }
{
    match without_label(here, label, text) {
        Some(text) => read_numbers(names, here, Counted::Line, b',', text),
        None => Ok(None),
    }
}

/// The operators that a part lists.
pub fn operators_part(names: &mut Names, here: Here, text: &[u8]) -> Result<Option<Numbers>, Memory>
    ensures { IfOk result (λ operators. operators ≡ operators_part here text.now) }
{
    match without_label(here, b"ops", text) {
        Some(text) => read_numbers(names, here, Counted::Operator, b',', text),
        None => Ok(None),
    }
}

/// What a part lists, between separators.
pub fn list_part<T: Item + Drop>(
    names: &mut Names,
    here: Here,
    label: &[u8],
    separator: u8,
    text: &[u8],
) -> Result<Option<Sequence<T>>, Memory>
    ensures { IfOk result (λ items. items ≡ part here label.now (read_listed (T.reads here) separator) text.now) }
{
    match without_label(here, label, text) {
        Some(text) => read_list(names, here, separator, text),
        None => Ok(None),
    }
}
