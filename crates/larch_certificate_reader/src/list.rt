ghost use Rattle.std.specs.Prelude.{◌≡◌, ℕ, List, Option, IfOk};
ghost use Rattle.larch_certificate_reader.specs.Counted.{read_count};
ghost use Rattle.larch_certificate_text.specs.EquationText.{read_equation};
ghost use Rattle.larch_certificate_text.specs.LineText.{binding_of, positive, predicate_of, read_argument};
ghost use Rattle.larch_certificate_text.specs.LineText.{read_binding, read_box_part, read_operator, read_variable};
ghost use Rattle.larch_certificate_text.specs.LineText.{read_word, sort_as, words_of};
ghost use Rattle.larch_certificate_text.specs.ListText.{read_each, read_listed, split_at};
ghost use Rattle.larch_certificate_text.specs.declared.here.Here.{Here};

use crate::equation::{read_equation, read_term};
use crate::names::Names;
use crate::parts::{cut_at, read_number, read_ref};
use larch_base::{Memory, Name, Sequence, is_word};
use larch_certificate::{Binding, BoxPart, CodedEquation, CodedVar, Numbers};
use larch_certificate_text::Here;

/// What stands in a list.
pub trait Item {
    ghost reads: { Here → List ℕ → Option Self };

    /// The item that the text is.
    fn read(names: &mut Names, here: Here, text: &[u8]) -> Result<Option<Self>, Memory>
        ensures { IfOk result (λ item. item ≡ reads here text.now) };
}

/// The items between separators, or none for `-`.
pub fn read_list<T: Item + Drop>(
    names: &mut Names,
    here: Here,
    separator: u8,
    text: &[u8],
) -> Result<Option<Sequence<T>>, Memory>
    ensures { IfOk result (λ items. items ≡ read_listed (T.reads here) separator text.now) }
{
    if text == b"-".as_slice() {
        return Ok(Some(Sequence::new(names.alloc)));
    }
    read_items(names, here, separator, text)
}

fn read_items<T: Item + Drop>(
    names: &mut Names,
    here: Here,
    separator: u8,
    text: &[u8],
) -> Result<Option<Sequence<T>>, Memory>
    ensures { IfOk result (λ items. items ≡ read_each (T.reads here) (split_at separator text.now)) }
{
    let mut items = Sequence::new(names.alloc);
    let mut rest = text;
    'items: while let Some((first, others)) = cut_at(separator, rest) {
        let Some(item) = T::read(names, here, first)? else {
            return Ok(None);
        };
        items.push(item)?;
        rest = others;
    }
    let Some(last) = T::read(names, here, rest)? else {
        return Ok(None);
    };
    items.push(last)?;
    Ok(Some(items))
}

/// What a number in a list counts.
#[derive(Clone, Copy)]
pub enum Counted {
    /// An argument of a term.
    Argument,
    /// A line or a box.
    Line,
    /// An operator of the theory.
    Operator,
}

/// The numbers between separators, or none for `-`.
pub fn read_numbers(
    names: &mut Names,
    here: Here,
    kind: Counted,
    separator: u8,
    text: &[u8],
) -> Result<Option<Numbers>, Memory>
    ensures { IfOk result (λ items. items ≡ read_listed (read_count here kind) separator text.now) }
{
    if text == b"-".as_slice() {
        return Ok(Some(Sequence::new(names.alloc)));
    }
    read_counts(names, here, kind, separator, text)
}

fn read_counts(
    names: &mut Names,
    here: Here,
    kind: Counted,
    separator: u8,
    text: &[u8],
) -> Result<Option<Numbers>, Memory>
    ensures { IfOk result (λ items. items ≡ read_each (read_count here kind) (split_at separator text.now)) }
{
    let mut items = Sequence::new(names.alloc);
    let mut rest = text;
    'items: while let Some((first, others)) = cut_at(separator, rest) {
        let Some(item) = read_counted(here, kind, first) else {
            return Ok(None);
        };
        items.push(item)?;
        rest = others;
    }
    let Some(last) = read_counted(here, kind, rest) else {
        return Ok(None);
    };
    items.push(last)?;
    Ok(Some(items))
}

fn read_counted(here: Here, kind: Counted, text: &[u8]) -> Option<u64>
    ensures { result ≡ read_count here kind text.now }
{
    match kind {
        Counted::Argument => read_argument(text),
        Counted::Line => read_ref(here, text),
        Counted::Operator => read_operator(text),
    }
}

fn read_operator(text: &[u8]) -> Option<u64>
    ensures { result ≡ read_operator text.now }
{
    let [first, number @ ..] = text else {
        return None;
    };
    if *first == b'#' {
        read_number(number)
    } else {
        None
    }
}

fn read_argument(text: &[u8]) -> Option<u64>
    ensures { result ≡ read_argument text.now }
{
    let number = read_number(text)?;
    positive(number)
}

fn positive(number: u64) -> Option<u64>
    ensures { result ≡ positive number }
{
    if number == 0 { None } else { Some(number) }
}

/// The word that the text is.
pub fn read_word(names: &mut Names, text: &[u8]) -> Result<Option<Name>, Memory>
    ensures { IfOk result (λ word. word ≡ read_word text.now) }
{
    if !is_word(text) {
        return Ok(None);
    }
    let word = names.name(text)?;
    Ok(Some(word))
}

impl Item for CodedEquation {
    ghost reads = { read_equation };

    fn read(names: &mut Names, here: Here, text: &[u8]) -> Result<Option<CodedEquation>, Memory> {
        read_equation(names, here, text)
    }
}

impl Item for BoxPart {
    ghost reads = { λ here text. read_box_part text };

    fn read(names: &mut Names, _here: Here, text: &[u8]) -> Result<Option<BoxPart>, Memory> {
        read_box_part(names, text)
    }
}

fn read_box_part(names: &mut Names, text: &[u8]) -> Result<Option<BoxPart>, Memory>
    ensures { IfOk result (λ part. part ≡ read_box_part text.now) }
{
    match cut_at(b'>', text) {
        Some((sort, answer)) => predicate_of(names, sort, answer),
        None => sort_as(names, false, text),
    }
}

fn predicate_of(names: &mut Names, sort: &[u8], answer: &[u8]) -> Result<Option<BoxPart>, Memory>
    ensures { IfOk result (λ part. part ≡ predicate_of (sort.now, answer.now)) }
{
    if answer == b"Bool".as_slice() {
        sort_as(names, true, sort)
    } else {
        Ok(None)
    }
}

fn sort_as(names: &mut Names, predicate: bool, text: &[u8]) -> Result<Option<BoxPart>, Memory>
    ensures { IfOk result (λ part. part ≡ sort_as predicate text.now) }
{
    match read_word(names, text)? {
        Some(sort) => Ok(Some(BoxPart { sort, predicate })),
        None => Ok(None),
    }
}

impl Item for CodedVar {
    ghost reads = { λ here text. read_variable text };

    fn read(names: &mut Names, _here: Here, text: &[u8]) -> Result<Option<CodedVar>, Memory> {
        read_variable(names, text)
    }
}

/// The variable that the text is.
pub fn read_variable(names: &mut Names, text: &[u8]) -> Result<Option<CodedVar>, Memory>
    ensures { IfOk result (λ variable. variable ≡ read_variable text.now) }
{
    match cut_at(b':', text) {
        Some((name, sort)) => words_of(names, name, sort),
        None => Ok(None),
    }
}

fn words_of(names: &mut Names, name: &[u8], sort: &[u8]) -> Result<Option<CodedVar>, Memory>
    ensures { IfOk result (λ variable. variable ≡ words_of (name.now, sort.now)) }
{
    let Some(name) = read_word(names, name)? else {
        return Ok(None);
    };
    match read_word(names, sort)? {
        Some(sort) => Ok(Some(CodedVar { name, sort })),
        None => Ok(None),
    }
}

impl Item for Binding {
    ghost reads = { read_binding };

    fn read(names: &mut Names, here: Here, text: &[u8]) -> Result<Option<Binding>, Memory> {
        read_binding(names, here, text)
    }
}

fn read_binding(names: &mut Names, here: Here, text: &[u8]) -> Result<Option<Binding>, Memory>
    ensures { IfOk result (λ item. item ≡ read_binding here text.now) }
{
    match cut_at(b'=', text) {
        Some((variable, image)) => binding_of(names, here, variable, image),
        None => Ok(None),
    }
}

fn binding_of(
    names: &mut Names,
    here: Here,
    variable: &[u8],
    image: &[u8],
) -> Result<Option<Binding>, Memory>
    ensures { IfOk result (λ item. item ≡ binding_of here (variable.now, image.now)) }
{
    let Some(CodedVar { name, sort }) = read_variable(names, variable)? else {
        return Ok(None);
    };
    match read_term(names, here, image)? {
        Some(term) => Ok(Some(Binding { name, sort, term })),
        None => Ok(None),
    }
}
