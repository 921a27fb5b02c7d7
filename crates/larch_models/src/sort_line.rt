ghost use Rattle.std.specs.Prelude.{◌≡◌, ◌&&◌, not, bytes_eq, ◌∷◌, [], ℕ, List, None, codes, option_and_then, IfNone, IfOk, IfSome};
ghost use Rattle.std.specs.List.{list_any};
ghost use Rattle.larch_term.specs.BuiltIn.{bool_sort};
ghost use Rattle.larch_certificate_text.specs.Parts.{read_number};
ghost use Rattle.larch_models_meaning.specs.ModelText.{with_count, words_of};
ghost use Rattle.larch_models_meaning.specs.declared.finite_model.SortValues.{SortValues};
ghost use Rattle.larch_models.specs.Reading.{last_of, may_follow, sort_among};

use crate::parts::{cut, read_number};
use larch_base::{Memory, Name};
use larch_models_meaning::SortValues;
use larch_sorts_known::SortSet;
use larch_term::Sort;
use std::alloc::Global;

/// The sort with its values that a line says, behind others.
pub(crate) fn read_sort(
    alloc: Global,
    known: &SortSet,
    sorts: &[SortValues],
    line: &[u8],
) -> Result<Option<SortValues>, Memory>
    ensures { IfOk result (λ found. found ≡ sort_among known.now sorts.now (words_of line.now)) }
{
    match name_and_count(line) {
        Some((name, count)) => named_sort(alloc, known, sorts, name, count),
        None => Ok(None),
    }
}

// The words behind `sort`, if there are two.
#[tactic(auto, using(crate::proofs::SortWords::one_word, crate::proofs::SortWords::wrong_words, crate::proofs::SortWords::right_word, crate::proofs::SortWords::another_word))]
fn name_and_count(line: &[u8]) -> Option<(&[u8], &[u8])>
    ensures some { IfSome result (λ p. words_of line.now ≡ codes "sort" ∷ p.0.now ∷ p.1.now ∷ []) }
    ensures none { IfNone result ((known : List (List ℕ)) (vs : List SortValues)
        → sort_among known vs (words_of line.now) ≡ None) }
{
    let (word, rest) = cut(b' ', line)?;
    if word == b"sort".as_slice() {
        two_words(rest)
    } else {
        None
    }
}

// The words, if there are two.
#[tactic(auto, using(crate::proofs::SortWords::single_word, crate::proofs::SortWords::third_word, crate::proofs::SortWords::both_words))]
fn two_words(text: &[u8]) -> Option<(&[u8], &[u8])>
    ensures some { IfSome result (λ p. words_of text.now ≡ p.0.now ∷ p.1.now ∷ []) }
    ensures none { IfNone result ((known : List (List ℕ)) (vs : List SortValues) (word : List ℕ)
        → sort_among known vs (word ∷ words_of text.now) ≡ None) }
{
    let (first, second) = cut(b' ', text)?;
    match cut(b' ', second) {
        Some(_) => None,
        None => Some((first, second)),
    }
}

// The sort of a name with so many values.
fn named_sort(
    alloc: Global,
    known: &SortSet,
    sorts: &[SortValues],
    name: &[u8],
    count: &[u8],
) -> Result<Option<SortValues>, Memory>
    ensures { IfOk result (λ found. found
        ≡ sort_among known.now sorts.now (codes "sort" ∷ name.now ∷ count.now ∷ [])) }
{
    let sort = Name::new(alloc, name)?;
    if may_follow(known, sorts, &sort) {
        Ok(sort_with(sort, count))
    } else {
        Ok(None)
    }
}

// Whether a sort may get a line: it is known, it isn't Bool, and it hasn't had one.
fn may_follow(known: &SortSet, sorts: &[SortValues], sort: &Sort) -> bool
    ensures { result ≡ may_follow known.now sorts.now sort.now }
{
    known.contains(sort) && has_no_values(sorts, sort)
}

// Whether the sort isn't Bool, and hasn't had a line.
fn has_no_values(sorts: &[SortValues], sort: &Sort) -> bool
    ensures { result ≡ (not (bytes_eq sort.now bool_sort)
        && not (list_any (λ (v : SortValues). bytes_eq v.sort sort.now) sorts.now)) }
{
    sort.bytes() != b"Bool".as_slice() && !has_line(sorts, sort)
}

// Whether the sort has had a line.
fn has_line(sorts: &[SortValues], sort: &Sort) -> bool
    ensures { result ≡ list_any (λ (v : SortValues). bytes_eq v.sort sort.now) sorts.now }
{
    sorts.iter().any(|values| values.sort == *sort)
}

// A sort with so many values.
fn sort_with(sort: Sort, count: &[u8]) -> Option<SortValues>
    ensures { result ≡ option_and_then (with_count sort) (read_number count.now) }
{
    let last = last_of(count)?;
    Some(SortValues { sort, last })
}

// The last of so many values, of which there are 1 to 16.
fn last_of(count: &[u8]) -> Option<u32>
    ensures { result ≡ option_and_then last_of (read_number count.now) }
{
    let count = read_number(count)?;
    if 0 < count && count <= MAX_VALUES {
        Some(count as u32 - 1)
    } else {
        None
    }
}

/// A sort has at most so many values.
const MAX_VALUES: u64 = 16;
