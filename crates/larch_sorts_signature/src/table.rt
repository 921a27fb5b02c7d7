ghost use Rattle.std.specs.Prelude.{◌≡◌, ℕ, List, IfOk, OnOk, cond, bytes_eq, Some, None};
ghost use Rattle.std.specs.Option.{option_copied};
ghost use Rattle.larch_term.specs.Equality.{same_tree};
ghost use Rattle.larch_sorts_counts.specs.SortsMeaningFoundFound.TheVariants.{One};
ghost use Rattle.larch_sorts_signature.specs.Table.{reading_at, merge, application};

use crate::reading::{Reading, same_reading};
use indexmap::IndexMap;
use larch_base::{Memory, Name, Sequence};
use larch_sorts_counts::from_sorts_meaning::Found;
use larch_term::{Operator, Sort};
use std::alloc::Global;
use std::rc::Rc;

/// What was found of each sort that a raw term reads at, which its copies share. So a word without arguments has one
/// table for all its uses, and little of a table stands in the frames of a recursion.
pub struct Table {
    /// What was found, under each sort.
    pub found: Rc<IndexMap<Name, Found<Reading>>>,
}

// By a call, so that a proof takes one apart in one place alone.
impl Drop for Table {
    fn drop(self) {
        let Table { found: _found } = self;
    }
}

impl Table {
    // The table with these entries.
    pub(crate) fn new(
        alloc: Global,
        entries: IndexMap<Name, Found<Reading>>,
    ) -> Result<Table, Memory>
        ensures { IfOk result (λ table. table.found.value.entries ≡ entries.entries) }
    {
        let found = Rc::new(alloc, entries)?;
        Ok(Table { found })
    }

    // The same once more. It takes no memory of its own, but there may be too many copies.
    pub(crate) fn copy(&self) -> Result<Table, Memory>
        ensures { IfOk result (λ table. table.found.value.entries ≡ self.now.found.value.entries) }
    {
        let found = self.found.clone()?;
        Ok(Table { found })
    }
}

/// What was found of a sort.
pub fn at<'a>(table: &'a Table, sort: &Sort) -> Option<&'a Found<Reading>>
    ensures { option_copied result ≡ reading_at table.now.found.value.entries sort.now }
{
    table.found.get(sort)
}

// Adds what an operator makes of the arguments that were found for it.
pub(crate) fn add(
    alloc: Global,
    entries: &mut IndexMap<Name, Found<Reading>>,
    operator: &Operator,
    arguments: Found<Sequence<Reading>>,
) -> Result<(), Memory>
    ensures { OnOk result ((s : List ℕ)
        → reading_at entries.new.entries s
        ≡ cond (bytes_eq operator.now.range s)
        (Some (merge (reading_at entries.old.entries s) (application operator.now arguments)))
        (reading_at entries.old.entries s)) }
{
    let added = apply(alloc, operator, arguments)?;
    let merged = join(entries.get(operator.range()), added);
    let sort = operator.range().copy()?;
    entries.insert(sort, merged)?;
    Ok(())
}

// An operator with the arguments that were found.
fn apply(
    alloc: Global,
    operator: &Operator,
    arguments: Found<Sequence<Reading>>,
) -> Result<Found<Reading>, Memory>
    ensures { IfOk result (λ found. found ≡ application operator.now arguments) }
{
    match arguments {
        Found::One(arguments) => {
            let operator = operator.copy()?;
            let reading = Reading::app(alloc, operator, arguments.into_vec())?;
            Ok(Found::One(reading))
        }
        Found::Several => Ok(Found::Several),
    }
}

/// What was found before together with what was found now.
pub fn join(before: Option<&Found<Reading>>, now: Found<Reading>) -> Found<Reading>
    ensures { result ≡ merge (option_copied before.entry) now }
{
    match before {
        None => now,
        Some(Found::Several) => Found::Several,
        Some(Found::One(reading)) => join_one(reading, now),
    }
}

// One reading together with what was found now.
fn join_one(reading: &Reading, now: Found<Reading>) -> Found<Reading>
    ensures { result ≡ merge (Some (One reading.now)) now }
{
    match now {
        Found::Several => Found::Several,
        Found::One(other) => {
            if is_same(reading, &other) {
                Found::One(other)
            } else {
                Found::Several
            }
        }
    }
}

/// Whether two readings are equal, as the definitions test it.
pub fn is_same(left: &Reading, right: &Reading) -> bool
    ensures { result ≡ same_tree left.now right.now }
{
    same_reading(left, right)
}

/// What was found once more.
pub fn copy_found(found: &Found<Reading>) -> Result<Found<Reading>, Memory>
    ensures { IfOk result (λ copy. copy ≡ found.now) }
{
    match found {
        Found::One(reading) => {
            let reading = reading.copy()?;
            Ok(Found::One(reading))
        }
        Found::Several => Ok(Found::Several),
    }
}

/// The table of what was found of one sort.
pub fn single(alloc: Global, sort: &Sort, found: Found<Reading>) -> Result<Table, Memory>
    ensures { IfOk result (λ table. (s : List ℕ)
        → reading_at table.found.value.entries s ≡ cond (bytes_eq sort.now s) (Some found) None) }
{
    let mut entries = IndexMap::new(alloc);
    let sort = sort.copy()?;
    entries.insert(sort, found)?;
    let table = Table::new(alloc, entries)?;
    Ok(table)
}

/// What a table has of a sort.
pub fn narrow_to(alloc: Global, table: &Table, sort: &Sort) -> Result<Table, Memory>
    ensures { IfOk result (λ narrow. (s : List ℕ)
        → reading_at narrow.found.value.entries s
        ≡ cond (bytes_eq sort.now s) (reading_at table.now.found.value.entries sort.now) None) }
{
    match at(table, sort) {
        None => {
            let table = Table::new(alloc, IndexMap::new(alloc))?;
            Ok(table)
        }
        Some(found) => {
            let found = copy_found(found)?;
            let table = single(alloc, sort, found)?;
            Ok(table)
        }
    }
}
