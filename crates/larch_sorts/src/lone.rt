ghost use Rattle.std.specs.Prelude.{◌≡◌, IfErr, IfOk, IfSome, None};
ghost use Rattle.std.specs.Option.{option_copied};
ghost use Rattle.larch_term.specs.Sorts.{WellSorted, IsOver};
ghost use Rattle.larch_sorts_signature.specs.SortsMeaningRead.{read_term, first_unread};
ghost use Rattle.larch_base.specs.Answering.{Answers};
ghost use Rattle.larch_sorts_signature.specs.SortsMeaningRefusal.{cause, Unread};
ghost use Rattle.larch_sorts_signature.specs.SortsMeaningScope.{HasVariablesOf};
ghost use Rattle.larch_sorts_signature.specs.SortsMeaningUnknown.{unknown_sort};
ghost use Rattle.larch_sorts_signature.specs.SortsMeaningStands.{Stands};
ghost use Rattle.larch_sorts_signature.specs.SortsMeaningReadings.{ReadsLone, IsOnly};
ghost use Rattle.larch_sorts_signature.specs.SortsMeaningFound.{Tells};

use crate::counted::{counted_anywhere, counted_at};
use crate::sides::anywhere;
use crate::tabulate::table_of;
use crate::unknown::unknown_sort;
use larch_raw::RawEquation;
use larch_sorts_signature::from_sorts_meaning::{Found, ReadRefusal, Scope, equation_head};
use larch_sorts_signature::table::{at, copy_found};
use larch_sorts_signature::{Reading, Signature, term_of};
use larch_term::{Sort, Term};
use std::alloc::Global;

/// The term that a lone term reads as, of a sort where one is wanted, or the first refusal.
pub fn read_lone(
    alloc: Global,
    signature: &Signature,
    scope: &Scope,
    raw: &RawEquation,
    sort: Option<&Sort>,
) -> Result<Term, ReadRefusal>
    requires { raw.now.right ≡ None }
    ensures answers { Answers cause result (read_term signature.now scope.now (option_copied sort.entry) raw.now) }

    // The same in terms of readings.
    ensures known { IfOk result (λ _. unknown_sort signature.now raw.now ≡ None) }
    ensures only { IfOk result (IsOnly (ReadsLone signature.now scope.now (option_copied sort.entry) raw.now)) }
    ensures stands { IfErr result (λ refusal. IfSome (cause refusal)
        (Stands signature.now scope.now raw.now
        (ReadsLone signature.now scope.now (option_copied sort.entry) raw.now))) }

    // What a term that is read is made of.
    ensures well_sorted { IfOk result (λ term. WellSorted term × IsOver signature.now term) }
    ensures in_scope { IfOk result (HasVariablesOf scope.now) }
{
    lone(alloc, signature, scope, raw, sort)
}

// The same, by what was found.
fn lone(
    alloc: Global,
    signature: &Signature,
    scope: &Scope,
    raw: &RawEquation,
    sort: Option<&Sort>,
) -> Result<Term, ReadRefusal>
    requires { raw.now.right ≡ None }
    ensures { Answers cause result (read_term signature.now scope.now (option_copied sort.entry) raw.now) }
{
    if let Some(pos) = unknown_sort(signature, raw) {
        return Err(ReadRefusal::UnknownSort(pos));
    }
    match lone_found(alloc, signature, scope, raw, sort)? {
        None => Err(ReadRefusal::NoReading(equation_head(raw))),
        Some(Found::Several) => Err(ReadRefusal::Ambiguous(raw.first)),
        Some(Found::One(reading)) => {
            let term = term_of(alloc, &reading)?;
            Ok(term)
        }
    }
}

// What a lone term reads as, or the head token of the first part in it that has no reading: as counts tell, or else its
// table.
fn lone_found(
    alloc: Global,
    signature: &Signature,
    scope: &Scope,
    raw: &RawEquation,
    sort: Option<&Sort>,
) -> Result<Option<Found<Reading>>, ReadRefusal>
    requires { raw.now.right ≡ None }
    ensures tells { IfOk result (λ found. Tells found
        (ReadsLone signature.now scope.now (option_copied sort.entry) raw.now)) }
    ensures read { IfOk result (λ _. first_unread signature.now scope.now raw.now ≡ None) }
    ensures unread { IfErr result (λ refusal. Unread refusal (first_unread signature.now scope.now raw.now)) }
{
    if let Some(found) = lone_by_counts(alloc, signature, scope, raw, sort)? {
        return Ok(found);
    }
    let found = lone_by_table(alloc, signature, scope, raw, sort)?;
    Ok(found)
}

// The same by counts, where they tell.
fn lone_by_counts(
    alloc: Global,
    signature: &Signature,
    scope: &Scope,
    raw: &RawEquation,
    sort: Option<&Sort>,
) -> Result<Option<Option<Found<Reading>>>, ReadRefusal>
    requires { raw.now.right ≡ None }
    ensures tells { IfOk result (λ answer. IfSome answer (λ found. Tells found
        (ReadsLone signature.now scope.now (option_copied sort.entry) raw.now))) }
    ensures read { IfOk result (λ answer. IfSome answer (λ _. first_unread signature.now scope.now raw.now ≡ None)) }
    ensures unread { IfErr result (λ refusal. Unread refusal (first_unread signature.now scope.now raw.now)) }
{
    match sort {
        None => {
            let told = counted_anywhere(alloc, signature, scope, &raw.left)?;
            Ok(told)
        }
        Some(sort) => {
            let told = counted_at(alloc, signature, scope, &raw.left, sort)?;
            Ok(told)
        }
    }
}

// The same by its table.
fn lone_by_table(
    alloc: Global,
    signature: &Signature,
    scope: &Scope,
    raw: &RawEquation,
    sort: Option<&Sort>,
) -> Result<Option<Found<Reading>>, ReadRefusal>
    requires { raw.now.right ≡ None }
    ensures tells { IfOk result (λ found. Tells found
        (ReadsLone signature.now scope.now (option_copied sort.entry) raw.now)) }
    ensures read { IfOk result (λ _. first_unread signature.now scope.now raw.now ≡ None) }
    ensures unread { IfErr result (λ refusal. Unread refusal (first_unread signature.now scope.now raw.now)) }
{
    let table = table_of(alloc, signature, scope, &raw.left)?;
    let Some(sort) = sort else {
        let found = anywhere(&table)?;
        return Ok(found);
    };
    match at(&table, sort) {
        None => Ok(None),
        Some(found) => {
            let found = copy_found(found)?;
            Ok(Some(found))
        }
    }
}
