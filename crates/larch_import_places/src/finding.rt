ghost use Rattle.std.specs.Prelude.{◌≡◌, ◌↔◌, ◌&&◌, ℕ, List, IfOk, IfSome, IfNone, IsTrue, Some};
ghost use Rattle.larch_import_meaning.specs.Imported.{HasRenamed};
ghost use Rattle.larch_import_names.specs.Names.{named_sort};

use crate::named_sorts::names_theory;
use crate::places::{are_found, places_by};
use larch_base::Memory;
use larch_certificate::Numbers;
use larch_import::new_numbers;
use larch_import_names::{Renaming, apart};
use larch_term::{Sort, Theory, bool_sort};
use std::alloc::Global;

/// The places of the first theory's statements among the second one's, by new names: where there are places, the second
/// theory has the first one by these names at them, and where there are none it doesn't have it at any. It goes through
/// the second theory once for each operator and each statement of the first one.
pub fn find_places(
    alloc: Global,
    by: &Renaming,
    source: &Theory,
    target: &Theory,
) -> Result<Option<Numbers>, Memory>
    ensures found { IfOk result (λ found. IfSome found (λ places. HasRenamed by.now source.now target.now places)) }
    ensures none { IfOk result (λ found. IfNone found ((places : List ℕ)
        → HasRenamed by.now source.now target.now places → ⊥)) }
{
    let truth = bool_sort(alloc)?;
    let numbers = new_numbers(alloc, by, source, target)?;
    let places = places_by(alloc, by, source, target)?;
    let stays = stays(by, &truth);
    let apart = apart(by);
    let named = names_theory(by, source);
    let operators = are_found(numbers.as_slice());
    let statements = are_found(places.as_slice());
    if are_all(stays, apart, named, operators, statements) {
        Ok(Some(places))
    } else {
        Ok(None)
    }
}

// Whether all tests are passed.
fn are_all(stays: bool, apart: bool, named: bool, operators: bool, statements: bool) -> bool
    ensures { result ≡ (stays && (apart && (named && (operators && statements)))) }
{
    stays && apart && named && operators && statements
}

// Whether a sort is its own new one.
fn stays(by: &Renaming, sort: &Sort) -> bool
    ensures { IsTrue result ↔ (named_sort by.now sort.now ≡ Some sort.now) }
{
    match by.new_sort(sort) {
        Some(new) => *new == *sort,
        None => false,
    }
}
