ghost use Rattle.std.specs.Prelude.{◌≡◌, ◌<◌, ◌+◌, ◌++◌, codes, flat_map, length, IfOk, OnOk};
ghost use Rattle.larch_base.specs.Answering.{Answers};
ghost use Rattle.larch_raw.specs.declared.equation.RawTrait.{RawTrait};
ghost use Rattle.larch_flat_meaning.specs.Gathered.{Marked};
ghost use Rattle.larch_duties_meaning.specs.Listing.{trait_listing, listed_marked, listed_operator, mark_text};
ghost use Rattle.larch_flat.specs.FlatSourcesSources.{name_at};
ghost use Rattle.larch_flat.specs.Known.{AreAllKnown, Knows, stop_told};
ghost use Rattle.larch_duties.specs.Kept.{theory_in};
ghost use Rattle.larch_duties.specs.Lines.{added_lines, clause_lines, clauses_lines, converted_lines, copy_lines};
ghost use Rattle.larch_duties.specs.Lines.{flat_lines, numbered_line, numbered_lines, own_lines};
ghost use Rattle.larch_duties.specs.TraitDuties.{flat_with, trait_listed};

use crate::clause::{Clause, Copied, clause_over, copy_of, is_its_copy};
use crate::conversion::Conversion;
use crate::known::{known_of, marked_at};
use crate::trait_duties::{Duties, duties_of};
use larch_base::{Bytes, Memory};
use larch_flat::FlatTraits;
use larch_flat::from_flat_gathering::Flat;
use larch_flat::from_flat_sources::Sources;
use larch_flat::from_flat_statements::MarkedStatements;
use larch_flat_meaning::from_traits_items::TraitRefusal;
use larch_print::{write_operator, write_statement};
use larch_term::{Operator, Statement};
use std::alloc::Global;

/// The lines of the trait of the file with a number and of its duties, behind the line of its name, where all flat
/// traits are known. `Wrong` has what is wrong first, as `duties_of` tells it.
pub fn list_trait(
    alloc: Global,
    sources: &Sources,
    flat_traits: &FlatTraits,
    number: usize,
) -> Result<Bytes, TraitRefusal>
    requires number { number < length sources.now }
    requires known { Knows sources.now flat_traits.now }
    requires all { AreAllKnown sources.now flat_traits.now }
    ensures { Answers stop_told result (trait_listed sources.now (name_at sources.now number)) }
{
    match known_of(flat_traits, number) {
        Ok(flat) => {
            let duties = duties_of(alloc, sources, flat_traits, number)?;
            let text = print_duties(alloc, flat, &duties)?;
            Ok(text)
        }
        Err(fault) => Err(TraitRefusal::Wrong(fault.pos, fault.code)),
    }
}

/// The lines of a flat trait and of duties: operators, statements with numbers, then duties, and before those of each
/// clause `converts` what it adds.
pub fn print_duties(alloc: Global, flat: &Flat, duties: &Duties) -> Result<Bytes, Memory>
    ensures { (raw : RawTrait) → IfOk result (λ text. text ≡ trait_listing (flat_with raw flat.now) duties.now) }
{
    let count = flat.marked.len() as u64;
    let own = duties.flat;
    let implied = duties.implied.as_slice();
    let conversions = duties.conversions.as_slice();
    let mut text = Bytes::new(alloc);
    write_flat(alloc, &mut text, flat)?;
    write_own(alloc, &mut text, own.discharge.as_slice(), implied)?;
    write_clauses(alloc, &mut text, count, own, conversions)?;
    Ok(text)
}

// Puts the lines of operators and of marked statements at the end.
fn write_flat(alloc: Global, text: &mut Bytes, flat: &Flat) -> Result<(), Memory>
    ensures { OnOk result (text.new ≡ text.old ++ flat_lines flat.now) }
{
    write_operators(text, flat.operators.as_slice())?;
    write_marked(alloc, text, &flat.marked)?;
    Ok(())
}

// Puts the lines of operators at the end.
fn write_operators(text: &mut Bytes, operators: &[Operator]) -> Result<(), Memory>
    ensures { OnOk result (text.new ≡ text.old ++ flat_map listed_operator operators.now) }
{
    for operator in operators {
        write_operator_line(text, operator)?;
    }
    Ok(())
}

// Puts the line of an operator at the end.
fn write_operator_line(text: &mut Bytes, operator: &Operator) -> Result<(), Memory>
    ensures { OnOk result (text.new ≡ text.old ++ listed_operator operator.now) }
{
    write_operator(text, operator)?;
    text.append(b"\n")?;
    Ok(())
}

// Puts the lines of marked statements at the end, with numbers from 1.
fn write_marked(alloc: Global, text: &mut Bytes, marked: &MarkedStatements) -> Result<(), Memory>
    ensures { OnOk result (text.new ≡ text.old ++ listed_marked 1 marked.now) }
{
    for index in 0..marked.len() {
        let (statement, assumed) = marked_at(marked, index);
        let number = index as u64 + 1;
        write_line(alloc, text, b"A", number, mark_word(assumed), statement)?;
    }
    Ok(())
}

// What a marked statement is, between blanks.
fn mark_word(assumed: bool) -> &'static [u8]
    ensures { (m : Marked) → m.assumed ≡ assumed → result.now ≡ codes " " ++ (mark_text m ++ codes " ") }
{
    if assumed { b" assumed " } else { b" asserted " }
}

// Puts lines for the duties of a trait's own theory at the end.
fn write_own(
    alloc: Global,
    text: &mut Bytes,
    discharge: &[Statement],
    implied: &[Statement],
) -> Result<(), Memory>
    ensures { OnOk result (text.new ≡ text.old ++ own_lines discharge.now implied.now) }
{
    write_lines(alloc, text, b"assume.", 1, b" ", discharge)?;
    write_lines(alloc, text, b"imply.", 1, b" ", implied)?;
    Ok(())
}

// Puts the lines of clauses, of a trait with so many statements, at the end. What a clause adds is made where it is
// wanted, and dropped behind its lines.
fn write_clauses(
    alloc: Global,
    text: &mut Bytes,
    count: u64,
    flat: &Flat,
    conversions: &[Conversion],
) -> Result<(), Memory>
    ensures { OnOk result (text.new ≡ text.old ++ clauses_lines count (theory_in flat.now) 1 conversions.now) }
{
    let mut next: u64 = 1;
    for conversion in conversions {
        let clause = clause_over(alloc, flat, conversion)?;
        write_clause(alloc, text, count, next, &clause)?;
        next = behind_duties(next, &clause)?;
    }
    Ok(())
}

// Puts the lines of a clause at the end: its operators, its statements, then its duties with numbers from here on.
fn write_clause(
    alloc: Global,
    text: &mut Bytes,
    count: u64,
    number: u64,
    clause: &Clause,
) -> Result<(), Memory>
    ensures { OnOk result (text.new ≡ text.old ++ clause_lines count number clause.now) }
{
    write_copies(alloc, text, clause.copies.as_slice())?;
    write_added(alloc, text, count, clause)?;
    write_converted(alloc, text, number, clause.copies.as_slice())?;
    Ok(())
}

// The number behind those of a clause's duties, the first of which has this one.
fn behind_duties(number: u64, clause: &Clause) -> Result<u64, Memory>
    ensures { IfOk result (λ next. next ≡ number + length clause.now.copies) }
{
    let converted = clause.copies.as_slice().len() as u64;
    let next = number.checked_add(converted).ok_or(Memory)?;
    Ok(next)
}

// Puts lines for the copies of operators at the end.
fn write_copies(alloc: Global, text: &mut Bytes, copies: &[Copied]) -> Result<(), Memory>
    ensures { OnOk result (text.new ≡ text.old ++ copy_lines copies.now) }
{
    for copied in copies {
        let copy = copy_of(alloc, copied)?;
        write_operator_line(text, &copy)?;
    }
    Ok(())
}

// Puts lines for the statements that a clause adds to so many at the end.
fn write_added(alloc: Global, text: &mut Bytes, count: u64, clause: &Clause) -> Result<(), Memory>
    ensures { OnOk result (text.new ≡ text.old ++ added_lines count clause.now) }
{
    let copied = clause.copied.as_slice();
    let exempt = clause.exempt.as_slice();
    let first = count.checked_add(1).ok_or(Memory)?;
    let behind = first.checked_add(copied.len() as u64).ok_or(Memory)?;
    write_lines(alloc, text, b"A", first, b" copied ", copied)?;
    write_lines(alloc, text, b"A", behind, b" exempt ", exempt)?;
    Ok(())
}

// Puts lines for the duties of converted operators at the end, with numbers from here on.
fn write_converted(
    alloc: Global,
    text: &mut Bytes,
    number: u64,
    copies: &[Copied],
) -> Result<(), Memory>
    ensures { OnOk result (text.new ≡ text.old ++ converted_lines number copies.now) }
{
    let mut next = number;
    for copied in copies {
        let statement = is_its_copy(alloc, copied)?;
        write_line(alloc, text, b"convert.", next, b" ", &statement)?;
        next = next.checked_add(1).ok_or(Memory)?;
    }
    Ok(())
}

// Puts lines for statements at the end, with numbers from here on.
fn write_lines(
    alloc: Global,
    text: &mut Bytes,
    before: &[u8],
    number: u64,
    behind: &[u8],
    statements: &[Statement],
) -> Result<(), Memory>
    ensures { OnOk result (text.new ≡ text.old ++ numbered_lines before.now number behind.now statements.now) }
{
    let mut next = number;
    for statement in statements {
        write_line(alloc, text, before, next, behind, statement)?;
        next = next.checked_add(1).ok_or(Memory)?;
    }
    Ok(())
}

// Puts a line for a statement at the end, with a number between these words.
fn write_line(
    alloc: Global,
    text: &mut Bytes,
    before: &[u8],
    number: u64,
    behind: &[u8],
    statement: &Statement,
) -> Result<(), Memory>
    ensures { OnOk result (text.new ≡ text.old ++ numbered_line before.now number behind.now statement.now) }
{
    let digits = format!(in alloc; "{number}")?;
    text.append(before)?;
    text.append(digits.as_bytes())?;
    text.append(behind)?;
    write_statement(text, statement)?;
    text.append(b"\n")?;
    Ok(())
}
