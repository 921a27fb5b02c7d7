ghost use Rattle.std.specs.Prelude.{◌≡◌, ◌++◌, map, OnOk};
ghost use Rattle.larch_certificate_printer.specs.Number.{number_spelled};
ghost use Rattle.larch_certificate_text.specs.EquationText.{equation_text};
ghost use Rattle.larch_certificate_text.specs.LineText.{number_text, named_ref, place_text, variable_text};
ghost use Rattle.larch_certificate_text.specs.ListText.{label_by, list_text, part_with_label};
ghost use Rattle.larch_certificate_text.specs.TermText.{term_text};

use crate::list::{Item, write_equation, write_list, write_numbers, write_variable};
use crate::number::{NumberKind, write_number, write_ref};
use crate::term::write_term;
use larch_base::{Memory, Name};
use larch_certificate::{Coded, CodedEquation, CodedVar};
use larch_certificate_text::{Here, Text};
use std::alloc::Global;

fn write_label(text: &mut Text, here: Here, label: &[u8]) -> Result<(), Memory>
    ensures { OnOk result (text.new ≡ text.old ++ label_by here.relative label.now) }
{
    if here.relative {
        text.append(label)?;
        text.push(b'=')?;
    }
    Ok(())
}

/// Puts a number with its name at the end.
#[tactic(auto, using(crate::proofs::Labels::named_label))]
pub fn write_number_part(
    alloc: Global,
    text: &mut Text,
    here: Here,
    label: &[u8],
    number: u64,
) -> Result<(), Memory>
    ensures { OnOk result (text.new ≡ text.old ++ number_text here label.now number) }
{
    write_label(text, here, label)?;
    write_number(alloc, text, number)
}

/// Puts a line that is named with the name of the part at the end.
#[tactic(auto, using(crate::proofs::Labels::named_label))]
pub fn write_ref_part(
    alloc: Global,
    text: &mut Text,
    here: Here,
    label: &[u8],
    line: u64,
) -> Result<(), Memory>
    ensures { OnOk result (text.new ≡ text.old ++ named_ref here label.now line) }
{
    write_label(text, here, label)?;
    write_ref(alloc, text, here, line)
}

/// Puts a term with its name at the end.
#[tactic(auto, using(crate::proofs::Labels::named_label))]
pub fn write_term_part(
    alloc: Global,
    text: &mut Text,
    here: Here,
    label: &[u8],
    term: &Coded,
) -> Result<(), Memory>
    ensures { OnOk result (text.new ≡ text.old ++ part_with_label here label.now (term_text here term.now)) }
{
    write_label(text, here, label)?;
    write_term(alloc, text, here, term)
}

/// Puts a sort with its name at the end.
#[tactic(auto, using(crate::proofs::Labels::named_label))]
pub fn write_sort_part(text: &mut Text, here: Here, label: &[u8], sort: &Name) -> Result<(), Memory>
    ensures { OnOk result (text.new ≡ text.old ++ part_with_label here label.now sort.now) }
{
    write_label(text, here, label)?;
    text.append(sort.bytes())
}

/// Puts a variable with its name at the end.
#[tactic(auto, using(crate::proofs::Labels::named_label))]
pub fn write_variable_part(
    text: &mut Text,
    here: Here,
    label: &[u8],
    variable: &CodedVar,
) -> Result<(), Memory>
    ensures { OnOk result (text.new ≡ text.old ++ part_with_label here label.now (variable_text variable.now)) }
{
    write_label(text, here, label)?;
    write_variable(text, variable)
}

/// Puts an equation with its name at the end.
#[tactic(auto, using(crate::proofs::Labels::named_label))]
pub fn write_equation_part(
    alloc: Global,
    text: &mut Text,
    here: Here,
    label: &[u8],
    equation: &CodedEquation,
) -> Result<(), Memory>
    ensures { OnOk result (text.new ≡ text.old ++ part_with_label here label.now (equation_text here equation.now)) }
{
    write_label(text, here, label)?;
    write_equation(alloc, text, here, equation)
}

/// Puts a list with its name at the end.
#[tactic(auto, using(crate::proofs::Labels::named_label))]
pub fn write_list_part<T: Item>(
    alloc: Global,
    text: &mut Text,
    here: Here,
    label: &[u8],
    separator: u8,
    items: &[T],
) -> Result<(), Memory>
    ensures { OnOk result (text.new ≡ text.old
        ++ part_with_label here label.now (list_text separator (map (T.spells here) items.now))) }
{
    write_label(text, here, label)?;
    write_list(alloc, text, here, separator, items)
}

/// Puts a place with its name at the end.
#[tactic(auto, using(crate::proofs::Labels::named_label))]
pub fn write_place_part(
    alloc: Global,
    text: &mut Text,
    here: Here,
    place: &[u64],
) -> Result<(), Memory>
    ensures { OnOk result (text.new ≡ text.old ++ place_text here place.now) }
{
    write_label(text, here, b"at")?;
    write_numbers(alloc, text, here, NumberKind::Argument, b'.', place)
}

/// Puts a list of numbers of lines, boxes or operators with its name at the end.
#[tactic(auto, using(crate::proofs::Labels::named_label))]
pub fn write_numbers_part(
    alloc: Global,
    text: &mut Text,
    here: Here,
    label: &[u8],
    kind: NumberKind,
    numbers: &[u64],
) -> Result<(), Memory>
    ensures { OnOk result (text.new ≡ text.old
        ++ part_with_label here label.now (list_text 44 (map (number_spelled here kind) numbers.now))) }
{
    write_label(text, here, label)?;
    write_numbers(alloc, text, here, kind, b',', numbers)
}
