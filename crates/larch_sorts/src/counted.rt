ghost use Rattle.std.specs.Prelude.{◌≡◌, ◌++◌, IfErr, IfOk, IfSome, None};
ghost use Rattle.larch_sorts_signature.specs.SortsCountsCounted.{counts_in};
ghost use Rattle.larch_sorts_signature.specs.SortsCountsCounts.{AreCounts, AreRead, TellsUnread};
ghost use Rattle.larch_sorts_signature.specs.SortsMeaningFound.{Tells};
ghost use Rattle.larch_sorts_signature.specs.SortsMeaningReadings.{ReadsAt, Reads};
ghost use Rattle.larch_sorts_signature.specs.SortsMeaningParts.{parts};
ghost use Rattle.larch_sorts_signature.specs.SortsMeaningRead.{first_unread, unread_in};
ghost use Rattle.larch_sorts.specs.Sides.{ReadBoth, ReadsFormula, ReadsSides};
ghost use Rattle.larch_sorts_signature.specs.SortsMeaningRefusal.{Unread};

use crate::found::Sides;
use crate::pick::picked_at;
use crate::sides::truth;
use crate::width::{are_wide, is_wide};
use larch_base::{Memory, let_go};
use larch_raw::{RawEquation, RawTerm};
use larch_sorts_signature::from_sorts_counts::tally::{count_at, meeting, span, total};
use larch_sorts_signature::from_sorts_counts::{Count, Counted, Numbers, SortCounts, counts_of};
use larch_sorts_signature::from_sorts_meaning::{Found, ReadRefusal, Scope};
use larch_sorts_signature::{Reading, Signature};
use larch_term::{Sort, bool_sort};
use std::alloc::Global;

// What was counted of both sides of an equation.
struct Both {
    left: Counted,
    right: Counted,
}

// By a call, so that a proof takes one apart in one place alone.
impl Drop for Both {
    fn drop(self) {
        let Both {
            left: _left,
            right: _right,
        } = self;
    }
}

// What a term reads as at a sort, where it is worth counting and counts tell, or the head token of the first part that
// has no reading.
pub(crate) fn counted_at(
    alloc: Global,
    signature: &Signature,
    scope: &Scope,
    raw: &RawTerm,
    sort: &Sort,
) -> Result<Option<Option<Found<Reading>>>, ReadRefusal>
    ensures tells { IfOk result (λ told. IfSome told (λ found.
        Tells found (ReadsAt signature.now scope.now raw.now sort.now))) }
    ensures read { IfOk result (λ told. IfSome told (λ _.
        unread_in signature.now scope.now (parts raw.now) ≡ None)) }
    ensures unread { IfErr result (λ refusal. Unread refusal (unread_in signature.now scope.now (parts raw.now))) }
{
    let Some(numbers) = signature.numbers() else {
        return Ok(None);
    };
    if !is_wide(signature, scope, raw)? {
        return Ok(None);
    }
    let Some(counted) = counts_of(alloc, numbers, scope, raw)? else {
        return Ok(None);
    };
    let number = numbers.number(sort);
    if numbers.len() <= number {
        return Ok(None);
    }
    match count_at(&counted.counts, number) {
        Count::Never => Ok(Some(None)),
        Count::Often => Ok(Some(Some(Found::Several))),
        Count::Once => {
            let Some(reading) = picked_at(alloc, signature, scope, raw, &counted, sort)? else {
                return Ok(None);
            };
            Ok(Some(Some(Found::One(reading))))
        }
    }
}

// What a term reads as at any sort, where counts tell, or the head token of the first part that has no reading.
pub(crate) fn counted_anywhere(
    alloc: Global,
    signature: &Signature,
    scope: &Scope,
    raw: &RawTerm,
) -> Result<Option<Option<Found<Reading>>>, ReadRefusal>
    ensures tells { IfOk result (λ told. IfSome told (λ found. Tells found (Reads signature.now scope.now raw.now))) }
    ensures read { IfOk result (λ told. IfSome told (λ _.
        unread_in signature.now scope.now (parts raw.now) ≡ None)) }
    ensures unread { IfErr result (λ refusal. Unread refusal (unread_in signature.now scope.now (parts raw.now))) }
{
    let Some(numbers) = signature.numbers() else {
        return Ok(None);
    };
    if !is_wide(signature, scope, raw)? {
        return Ok(None);
    }
    let Some(counted) = counts_of(alloc, numbers, scope, raw)? else {
        return Ok(None);
    };
    match total(numbers.len(), &counted.counts) {
        Count::Never => Ok(Some(None)),
        Count::Often => Ok(Some(Some(Found::Several))),
        Count::Once => {
            let counts = &counted.counts;
            let Some(sort) = sort_met(numbers, counts, counts) else {
                return Ok(None);
            };
            let Some(reading) = picked_at(alloc, signature, scope, raw, &counted, sort)? else {
                return Ok(None);
            };
            Ok(Some(Some(Found::One(reading))))
        }
    }
}

// The sides that an equation reads as, where counts tell, or the head token of the first part in them that has no
// reading.
pub(crate) fn counted_sides(
    alloc: Global,
    signature: &Signature,
    scope: &Scope,
    raw: &RawEquation,
) -> Result<Option<Option<Found<Sides>>>, ReadRefusal>
    ensures tells { IfOk result (λ told. IfSome told (λ found.
        Tells found (ReadsSides signature.now scope.now raw.now))) }
    ensures read { IfOk result (λ told. IfSome told (λ _. first_unread signature.now scope.now raw.now ≡ None)) }
    ensures unread { IfErr result (λ refusal. Unread refusal (first_unread signature.now scope.now raw.now)) }
{
    match &raw.right {
        None => {
            let told = counted_formula(alloc, signature, scope, &raw.left)?;
            Ok(told)
        }
        Some(right) => {
            let told = counted_both(alloc, signature, scope, &raw.left, &right.term)?;
            Ok(told)
        }
    }
}

// What a formula reads as, and true beside it.
fn counted_formula(
    alloc: Global,
    signature: &Signature,
    scope: &Scope,
    left: &RawTerm,
) -> Result<Option<Option<Found<Sides>>>, ReadRefusal>
    ensures tells { IfOk result (λ told. IfSome told (λ found.
        Tells found (ReadsFormula signature.now scope.now left.now))) }
    ensures read { IfOk result (λ told. IfSome told (λ _.
        unread_in signature.now scope.now (parts left.now) ≡ None)) }
    ensures unread { IfErr result (λ refusal. Unread refusal (unread_in signature.now scope.now (parts left.now))) }
{
    let sort = bool_sort(alloc)?;
    match counted_at(alloc, signature, scope, left, &sort)? {
        None => Ok(None),
        Some(None) => Ok(Some(None)),
        Some(Some(Found::Several)) => Ok(Some(Some(Found::Several))),
        Some(Some(Found::One(left))) => {
            let right = truth(alloc, &sort)?;
            Ok(Some(Some(Found::One(Sides { left, right }))))
        }
    }
}

// What two terms read as, of one sort.
fn counted_both(
    alloc: Global,
    signature: &Signature,
    scope: &Scope,
    left: &RawTerm,
    right: &RawTerm,
) -> Result<Option<Option<Found<Sides>>>, ReadRefusal>
    ensures tells { IfOk result (λ told. IfSome told (λ found.
        Tells found (ReadBoth signature.now scope.now left.now right.now))) }
    ensures read { IfOk result (λ told. IfSome told (λ _.
        (unread_in signature.now scope.now (parts left.now) ≡ None)
        × (unread_in signature.now scope.now (parts right.now) ≡ None))) }
    ensures unread { IfErr result (λ refusal.
        Unread refusal (unread_in signature.now scope.now (parts left.now ++ parts right.now))) }
{
    let Some(numbers) = signature.numbers() else {
        return Ok(None);
    };
    if !are_wide(signature, scope, left, right)? {
        return Ok(None);
    }
    let Some(both) = counts_of_both(alloc, numbers, scope, left, right)? else {
        return Ok(None);
    };
    match meeting(numbers.len(), &both.left.counts, &both.right.counts) {
        None => Ok(None),
        Some(Count::Never) => Ok(Some(None)),
        Some(Count::Often) => Ok(Some(Some(Found::Several))),
        Some(Count::Once) => {
            let Some(sides) = picked_both(alloc, signature, scope, left, right, &both)? else {
                return Ok(None);
            };
            Ok(Some(Some(Found::One(sides))))
        }
    }
}

// What was counted of both sides, where both are counted, or the head token of the first part in them that has no
// reading.
fn counts_of_both(
    alloc: Global,
    numbers: &Numbers,
    scope: &Scope,
    left: &RawTerm,
    right: &RawTerm,
) -> Result<Option<Both>, ReadRefusal>
    ensures counts { IfOk result (λ found. IfSome found (λ both.
        AreCounts numbers.now scope.now left.now (counts_in both.left)
        × AreCounts numbers.now scope.now right.now (counts_in both.right))) }
    ensures read { IfOk result (λ found. IfSome found (λ _.
        AreRead numbers.now scope.now (parts left.now) × AreRead numbers.now scope.now (parts right.now))) }
    ensures unread { IfErr result (TellsUnread numbers.now scope.now (parts left.now ++ parts right.now)) }
{
    let Some(lefts) = counts_of(alloc, numbers, scope, left)? else {
        return Ok(None);
    };
    match counts_of(alloc, numbers, scope, right) {
        Ok(Some(rights)) => Ok(Some(Both {
            left: lefts,
            right: rights,
        })),
        Ok(None) => Ok(let_go(None, lefts)),
        Err(refusal) => Err(let_go(refusal, lefts)),
    }
}

// The sides that two terms read as, found by their counts where there is one reading of each.
fn picked_both(
    alloc: Global,
    signature: &Signature,
    scope: &Scope,
    left: &RawTerm,
    right: &RawTerm,
    both: &Both,
) -> Result<Option<Sides>, Memory>
    ensures { IfOk result (λ found. IfSome found (ReadBoth signature.now scope.now left.now right.now)) }
{
    let Some(numbers) = signature.numbers() else {
        return Ok(None);
    };
    let Some(sort) = sort_met(numbers, &both.left.counts, &both.right.counts) else {
        return Ok(None);
    };
    let Some(left) = picked_at(alloc, signature, scope, left, &both.left, sort)? else {
        return Ok(None);
    };
    let Some(right) = picked_at(alloc, signature, scope, right, &both.right, sort)? else {
        return Ok(None);
    };
    Ok(Some(Sides { left, right }))
}

// The first sort that is counted in both.
fn sort_met<'a>(numbers: &'a Numbers, left: &SortCounts, right: &SortCounts) -> Option<&'a Sort> {
    let (first, end) = span(left, numbers.len());
    for i in first..end {
        if !is_never(count_at(left, i)) && !is_never(count_at(right, i)) {
            return numbers.sort(i);
        }
    }
    None
}

// Whether nothing was counted.
fn is_never(count: Count) -> bool {
    matches!(count, Count::Never)
}
