ghost use Rattle.std.specs.Prelude.{◌≡◌, ℕ, List, Option, Some, IfOk, OnOk, fold, map};
ghost use Rattle.larch_term.specs.Tree.{Tree};
ghost use Rattle.larch_sorts_counts.specs.SortsMeaningFoundFound.{Found};
ghost use Rattle.larch_sorts_signature.specs.Table.{reading_at};
ghost use Rattle.larch_sorts_signature.specs.Operators.{arguments_at, operators_at, with_operator};
ghost use Rattle.larch_sorts_signature.specs.Operators.{with_argument, resume_arguments};

use crate::reading::Reading;
use crate::table::{Table, add, at};
use indexmap::IndexMap;
use larch_base::{Memory, Name, Sequence};
use larch_sorts_counts::from_sorts_meaning::Found;
use larch_term::{Operator, Sort};
use std::alloc::Global;

// What operators make of the arguments in tables.
pub(crate) fn by_operators(
    alloc: Global,
    tables: &[Table],
    operators: &[Operator],
) -> Result<Table, Memory>
    ensures { IfOk result (λ table. (s : List ℕ)
        → reading_at table.found.value.entries s
        ≡ operators_at (map (λ t. t.found.value.entries) tables.now) operators.now s) }
{
    let mut entries = IndexMap::new(alloc);
    add_operators(alloc, tables, operators, &mut entries)?;
    let table = Table::new(alloc, entries)?;
    Ok(table)
}

// Adds what operators make of the arguments in tables.
pub(crate) fn add_operators(
    alloc: Global,
    tables: &[Table],
    operators: &[Operator],
    entries: &mut IndexMap<Name, Found<Reading>>,
) -> Result<(), Memory>
    ensures { OnOk result ((s : List ℕ)
        → reading_at entries.new.entries s
        ≡ fold (with_operator (map (λ t. t.found.value.entries) tables.now) s) (reading_at entries.old.entries s)
        operators.now) }
{
    for operator in operators {
        add_operator(alloc, tables, operator, entries)?;
    }
    Ok(())
}

// Adds what an operator makes of the arguments in tables.
fn add_operator(
    alloc: Global,
    tables: &[Table],
    operator: &Operator,
    entries: &mut IndexMap<Name, Found<Reading>>,
) -> Result<(), Memory>
    ensures { OnOk result ((s : List ℕ)
        → reading_at entries.new.entries s
        ≡ with_operator (map (λ t. t.found.value.entries) tables.now) s (reading_at entries.old.entries s)
        operator.now) }
{
    if let Some(arguments) = arguments_at(alloc, tables, operator.domain())? {
        add(alloc, entries, operator, arguments)?;
    }
    Ok(())
}

// The arguments that tables have at sorts, one by one.
fn arguments_at(
    alloc: Global,
    tables: &[Table],
    sorts: &[Sort],
) -> Result<Option<Found<Sequence<Reading>>>, Memory>
    ensures { IfOk result (λ found. found ≡ arguments_at (map (λ t. t.found.value.entries) tables.now) sorts.now) }
{
    if tables.len() != sorts.len() {
        return Ok(None);
    }
    let mut several = false;
    let mut arguments = Sequence::new(alloc);
    for i in 0..sorts.len() {
        let Some(found) = at(&tables[i], &sorts[i]) else {
            return Ok(None);
        };
        several = push_found(found, several, &mut arguments)?;
    }
    if several {
        return Ok(Some(Found::Several));
    }
    Ok(Some(Found::One(arguments)))
}

// Puts one more argument behind those so far, which may be several; answers whether they are several now.
#[tactic(auto, using(crate::proofs::Arguments::resumed_one, crate::proofs::Arguments::resumed_several))]
fn push_found(
    found: &Found<Reading>,
    several: bool,
    arguments: &mut Sequence<Reading>,
) -> Result<bool, Memory>
    ensures { IfOk result (λ now. (rest : Option (Found (List Tree)))
        → resume_arguments arguments.new now rest
        ≡ resume_arguments arguments.old several (with_argument (Some found.now) rest)) }
{
    match found {
        Found::Several => Ok(true),
        Found::One(reading) => {
            let reading = reading.copy()?;
            arguments.push(reading)?;
            Ok(several)
        }
    }
}
