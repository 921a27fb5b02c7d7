ghost use Rattle.std.specs.Prelude.{◌≡◌, Some, None, IfOk, IsTrue};
ghost use Rattle.larch_term.specs.BuiltIn.{bool_sort};
ghost use Rattle.larch_term.specs.Truth.{truth};
ghost use Rattle.larch_term.specs.Equality.{same_tree};
ghost use Rattle.larch_sorts_signature.specs.Table.{reading_at, sorts_in};
ghost use Rattle.larch_sorts_signature.specs.SortsMeaningFound.{merged_by, with_found};
ghost use Rattle.larch_sorts.specs.Sides.{AreFound, found_anywhere, pair_sides, same_sides, sides_found, formula_found};
ghost use Rattle.larch_sorts_signature.specs.SortsMeaningFoundFound.TheVariants.{One, Several};

use crate::found::Sides;
use larch_base::Memory;
use larch_sorts_signature::from_sorts_meaning::Found;
use larch_sorts_signature::table::{at, copy_found, is_same, join};
use larch_sorts_signature::{Reading, Table};
use larch_term::{BuiltIn, Sort, bool_sort};
use std::alloc::Global;

// What was found of all sorts.
pub(crate) fn anywhere(table: &Table) -> Result<Option<Found<Reading>>, Memory>
    ensures { IfOk result (λ found. found ≡ found_anywhere table.now.found.value.entries) }
{
    let mut found = None;
    for sort in table.found.keys() {
        if let Some(now) = at(table, sort) {
            let now = copy_found(now)?;
            found = Some(join(found.as_ref(), now));
        }
    }
    Ok(found)
}

// The sides of one sort. It goes through the sorts of the side that has fewer.
pub(crate) fn sides(left: &Table, right: &Table) -> Result<Option<Found<Sides>>, Memory>
    ensures { IfOk result (AreFound left.now.found.value.entries right.now.found.value.entries) }
{
    if left.found.len() <= right.found.len() {
        let found = sides_among(left, right, left)?;
        return Ok(found);
    }
    let found = sides_among(left, right, right)?;
    Ok(found)
}

// The sides of one of the sorts of a table.
fn sides_among(left: &Table, right: &Table, sorts: &Table) -> Result<Option<Found<Sides>>, Memory>
    ensures { IfOk result (λ found. found
        ≡ sides_found left.now.found.value.entries right.now.found.value.entries
        (sorts_in sorts.now.found.value.entries)) }
{
    let mut found = None;
    for sort in sorts.found.keys() {
        let now = sides_at(left, right, sort)?;
        found = with_sides(found, now);
        if are_several(&found) {
            return Ok(Some(Found::Several));
        }
    }
    Ok(found)
}

// Whether several sides were found: then further ones change nothing.
fn are_several(found: &Option<Found<Sides>>) -> bool
    ensures { IsTrue result → found.now ≡ Some Several }
{
    matches!(found, Some(Found::Several))
}

// The sides of a sort.
fn sides_at(left: &Table, right: &Table, sort: &Sort) -> Result<Option<Found<Sides>>, Memory>
    ensures { IfOk result (λ found. found
        ≡ pair_sides (reading_at left.now.found.value.entries sort.now)
        (reading_at right.now.found.value.entries sort.now)) }
{
    match (at(left, sort), at(right, sort)) {
        (Some(Found::One(left)), Some(Found::One(right))) => {
            let left = left.copy()?;
            let right = right.copy()?;
            Ok(Some(Found::One(Sides { left, right })))
        }
        (Some(_), Some(_)) => Ok(Some(Found::Several)),
        _ => Ok(None),
    }
}

// The sides found before together with those found now.
fn with_sides(before: Option<Found<Sides>>, now: Option<Found<Sides>>) -> Option<Found<Sides>>
    ensures { result ≡ with_found same_sides before now }
{
    match now {
        None => before,
        Some(now) => Some(join_sides(before, now)),
    }
}

fn join_sides(before: Option<Found<Sides>>, now: Found<Sides>) -> Found<Sides>
    ensures { result ≡ merged_by same_sides before now }
{
    match before {
        None => now,
        Some(Found::Several) => Found::Several,
        Some(Found::One(sides)) => join_one(sides, now),
    }
}

fn join_one(sides: Sides, now: Found<Sides>) -> Found<Sides>
    ensures { result ≡ merged_by same_sides (Some (One sides)) now }
{
    match now {
        Found::Several => Found::Several,
        Found::One(others) => {
            if are_same(&sides, &others) {
                Found::One(others)
            } else {
                Found::Several
            }
        }
    }
}

// Whether both sides are equal.
fn are_same(sides: &Sides, others: &Sides) -> bool
    ensures { result ≡ same_sides sides.now others.now }
{
    is_same(&sides.left, &others.left) && is_same(&sides.right, &others.right)
}

// A formula, which is said to be true.
pub(crate) fn formula(alloc: Global, left: &Table) -> Result<Option<Found<Sides>>, Memory>
    ensures { IfOk result (λ found. found ≡ formula_found (reading_at left.now.found.value.entries bool_sort)) }
{
    let sort = bool_sort(alloc)?;
    match at(left, &sort) {
        None => Ok(None),
        Some(Found::Several) => Ok(Some(Found::Several)),
        Some(Found::One(left)) => {
            let left = left.copy()?;
            let right = truth(alloc, &sort)?;
            Ok(Some(Found::One(Sides { left, right })))
        }
    }
}

// The built-in constant true.
pub(crate) fn truth(alloc: Global, sort: &Sort) -> Result<Reading, Memory>
    ensures { IfOk result (λ reading. reading ≡ truth) }
{
    let operator = BuiltIn::True.operator(alloc, sort)?;
    let reading = Reading::app(alloc, operator, Vec::new(alloc))?;
    Ok(reading)
}
