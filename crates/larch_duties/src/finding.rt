ghost use Rattle.std.specs.Prelude.{◌≡◌, ◌+◌, bytes_eq, find, option_map, IfOk};
ghost use Rattle.std.specs.Option.{option_copied};
ghost use Rattle.larch_base.specs.Label.{label_text};
ghost use Rattle.larch_duties_meaning.specs.Duties.{all_duties};
ghost use Rattle.larch_duties.specs.Finding.{clause_duty, converted_duty, kept_duty, label_behind, labelled_in};
ghost use Rattle.larch_duties.specs.Finding.{own_labelled};

use crate::clause::{clause_over, is_its_copy};
use crate::conversion::Conversion;
use crate::theories::{clause_theory, theory_of};
use crate::trait_duties::Duties;
use larch_base::{Label, Memory};
use larch_flat::from_flat_gathering::Flat;
use larch_term::{Statement, Theory, copy_statement};
use std::alloc::Global;

/// The theory and the statement of the first duty whose label has this text, where one has it. The theory is made
/// afresh.
pub fn find_duty(
    alloc: Global,
    duties: &Duties,
    label: &[u8],
) -> Result<Option<(Theory, Statement)>, Memory>
    ensures { IfOk result (λ found. found ≡ option_map (λ d. (d.theory, d.statement))
        (find (λ d. bytes_eq label.now (label_text d.label)) (all_duties duties.now))) }
{
    let implied = duties.implied.as_slice();
    let conversions = duties.conversions.as_slice();
    let found = kept_duty(alloc, duties.flat, implied, conversions, label)?;
    Ok(found)
}

// The same by what is kept of the duties: those of the trait itself come first.
fn kept_duty(
    alloc: Global,
    flat: &Flat,
    implied: &[Statement],
    conversions: &[Conversion],
    text: &[u8],
) -> Result<Option<(Theory, Statement)>, Memory>
    ensures { IfOk result (λ found. found ≡ kept_duty flat.now implied.now conversions.now text.now) }
{
    if let Some(statement) = own_labelled(alloc, flat, implied, text)? {
        let theory = theory_of(alloc, flat)?;
        let statement = copy_statement(alloc, statement)?;
        return Ok(Some((theory, statement)));
    }
    let found = converted_duty(alloc, flat, conversions, text)?;
    Ok(found)
}

// What is to be discharged or is implied under a label with this text.
fn own_labelled<'a>(
    alloc: Global,
    flat: &'a Flat,
    implied: &'a [Statement],
    text: &[u8],
) -> Result<Option<&'a Statement>, Memory>
    ensures { IfOk result (λ found. option_copied found ≡ own_labelled flat.now implied.now text.now) }
{
    let discharge = flat.discharge.as_slice();
    if let Some(statement) = labelled_in(alloc, Label::Assume(1), discharge, text)? {
        return Ok(Some(statement));
    }
    let statement = labelled_in(alloc, Label::Imply(1), implied, text)?;
    Ok(statement)
}

// The duty of a converted operator whose label has this text.
fn converted_duty(
    alloc: Global,
    flat: &Flat,
    conversions: &[Conversion],
    text: &[u8],
) -> Result<Option<(Theory, Statement)>, Memory>
    ensures { IfOk result (λ found. found ≡ converted_duty flat.now 1 conversions.now text.now) }
{
    let mut number: u32 = 1;
    for conversion in conversions {
        let operators = conversion.converted.as_slice();
        let labelled = labelled_in(alloc, Label::Convert(number), operators, text)?;
        if labelled.is_some() {
            let found = clause_duty(alloc, flat, number, conversion, text)?;
            return Ok(found);
        }
        number = number_behind(number, operators.len())?;
    }
    Ok(None)
}

// The duty of a clause whose label has this text, where its labels have numbers from here on.
fn clause_duty(
    alloc: Global,
    flat: &Flat,
    number: u32,
    conversion: &Conversion,
    text: &[u8],
) -> Result<Option<(Theory, Statement)>, Memory>
    ensures { IfOk result (λ found. found ≡ clause_duty flat.now number conversion.now text.now) }
{
    let clause = clause_over(alloc, flat, conversion)?;
    let label = Label::Convert(number);
    let Some(copied) = labelled_in(alloc, label, clause.copies.as_slice(), text)? else {
        return Ok(None);
    };
    let statement = is_its_copy(alloc, copied)?;
    let theory = clause_theory(alloc, flat, clause)?;
    Ok(Some((theory, statement)))
}

// Of things with labels of one kind, numbered on from this label, the first whose label has this text.
fn labelled_in<'a, T>(
    alloc: Global,
    first: Label,
    things: &'a [T],
    text: &[u8],
) -> Result<Option<&'a T>, Memory>
    ensures { IfOk result (λ found. option_copied found ≡ labelled_in first things.now text.now) }
{
    let mut label = first;
    for thing in things {
        if has_text(alloc, label, text)? {
            return Ok(Some(thing));
        }
        label = label_behind(label)?;
    }
    Ok(None)
}

// Whether a label has this text.
fn has_text(alloc: Global, label: Label, text: &[u8]) -> Result<bool, Memory>
    ensures { IfOk result (λ has. has ≡ bytes_eq text.now (label_text label)) }
{
    let own = format!(in alloc; "{label}")?;
    Ok(text == own.as_bytes())
}

// The label of the same kind with the next number.
pub(crate) fn label_behind(label: Label) -> Result<Label, Memory>
    ensures { IfOk result (λ behind. behind ≡ label_behind label) }
{
    match label {
        Label::Assume(number) => {
            let next = number_behind(number, 1)?;
            Ok(Label::Assume(next))
        }
        Label::Imply(number) => {
            let next = number_behind(number, 1)?;
            Ok(Label::Imply(next))
        }
        Label::Convert(number) => {
            let next = number_behind(number, 1)?;
            Ok(Label::Convert(next))
        }
    }
}

// The number behind so many from here on. No label has a greater one than `u32` has.
pub(crate) fn number_behind(number: u32, count: usize) -> Result<u32, Memory>
    ensures { IfOk result (λ next. next ≡ number + count) }
{
    let Ok(count) = u32::try_from(count) else {
        return Err(Memory);
    };
    match number.checked_add(count) {
        Some(next) => Ok(next),
        None => Err(Memory),
    }
}
