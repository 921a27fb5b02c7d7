ghost use Rattle.std.specs.Prelude.{◌≡◌, ◌++◌, ℕ, List, OnOk, map};
ghost use Rattle.larch_certificate_printer.specs.Number.{number_spelled};
ghost use Rattle.larch_certificate_text.specs.EquationText.{equation_text};
ghost use Rattle.larch_certificate_text.specs.LineText.{binding_text, box_part_text, variable_text};
ghost use Rattle.larch_certificate_text.specs.ListText.{list_text};
ghost use Rattle.larch_certificate_text.specs.declared.here.Here.{Here};

use crate::number::{NumberKind, write_kind};
use crate::term::write_term;
use larch_base::Memory;
use larch_certificate::{Binding, BoxPart, CodedEquation, CodedVar};
use larch_certificate_text::{Here, Text};
use std::alloc::Global;

/// What stands in a list.
pub trait Item {
    ghost spells: { Here → Self → List ℕ };

    /// Puts the item at the end.
    fn write(&self, alloc: Global, text: &mut Text, here: Here) -> Result<(), Memory>
        ensures { OnOk result (text.new ≡ text.old ++ spells here self.now) };
}

/// Puts the items at the end, with separators between them, or `-` for none.
pub fn write_list<T: Item>(
    alloc: Global,
    text: &mut Text,
    here: Here,
    separator: u8,
    items: &[T],
) -> Result<(), Memory>
    ensures { OnOk result (text.new ≡ text.old ++ list_text separator (map (T.spells here) items.now)) }
{
    let [first, others @ ..] = items else {
        text.push(b'-')?;
        return Ok(());
    };
    first.write(alloc, text, here)?;
    for item in others {
        text.push(separator)?;
        item.write(alloc, text, here)?;
    }
    Ok(())
}

/// Puts the numbers at the end, with separators between them, or `-` for none.
pub fn write_numbers(
    alloc: Global,
    text: &mut Text,
    here: Here,
    kind: NumberKind,
    separator: u8,
    numbers: &[u64],
) -> Result<(), Memory>
    ensures { OnOk result (text.new ≡ text.old ++ list_text separator (map (number_spelled here kind) numbers.now)) }
{
    let [first, others @ ..] = numbers else {
        text.push(b'-')?;
        return Ok(());
    };
    write_kind(alloc, text, here, kind, *first)?;
    for number in others {
        text.push(separator)?;
        write_kind(alloc, text, here, kind, *number)?;
    }
    Ok(())
}

impl Item for CodedEquation {
    ghost spells = { equation_text };

    fn write(&self, alloc: Global, text: &mut Text, here: Here) -> Result<(), Memory> {
        write_equation(alloc, text, here, self)
    }
}

/// Puts an equation at the end.
pub fn write_equation(
    alloc: Global,
    text: &mut Text,
    here: Here,
    equation: &CodedEquation,
) -> Result<(), Memory>
    ensures { OnOk result (text.new ≡ text.old ++ equation_text here equation.now) }
{
    write_term(alloc, text, here, &equation.left)?;
    text.append(b"==")?;
    write_term(alloc, text, here, &equation.right)?;
    Ok(())
}

impl Item for CodedVar {
    ghost spells = { λ here variable. variable_text variable };

    fn write(&self, _alloc: Global, text: &mut Text, _here: Here) -> Result<(), Memory> {
        write_variable(text, self)
    }
}

/// Puts a variable at the end.
pub fn write_variable(text: &mut Text, variable: &CodedVar) -> Result<(), Memory>
    ensures { OnOk result (text.new ≡ text.old ++ variable_text variable.now) }
{
    text.append(variable.name.bytes())?;
    text.push(b':')?;
    text.append(variable.sort.bytes())?;
    Ok(())
}

impl Item for Binding {
    ghost spells = { binding_text };

    fn write(&self, alloc: Global, text: &mut Text, here: Here) -> Result<(), Memory> {
        text.append(self.name.bytes())?;
        text.push(b':')?;
        text.append(self.sort.bytes())?;
        text.push(b'=')?;
        write_term(alloc, text, here, &self.term)?;
        Ok(())
    }
}

impl Item for BoxPart {
    ghost spells = { λ here part. box_part_text part };

    fn write(&self, _alloc: Global, text: &mut Text, _here: Here) -> Result<(), Memory> {
        text.append(self.sort.bytes())?;
        if self.predicate {
            text.append(b">Bool")?;
        }
        Ok(())
    }
}
