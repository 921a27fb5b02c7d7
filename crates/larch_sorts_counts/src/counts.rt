ghost use Rattle.std.specs.Option.{option_copied};
ghost use Rattle.std.specs.Map.{lookup};
ghost use Rattle.std.specs.Prelude.{◌≡◌, ◌<◌, [], IfErr, IfOk, IfSome, Some, bytes_eq, length, map};
ghost use Rattle.larch_sorts_meaning.specs.RawRawTree.{raw_forest};
ghost use Rattle.larch_sorts_counts.specs.Counted.{counts_in};
ghost use Rattle.larch_sorts_counts.specs.Count.{alone, count_at, counts_made};
ghost use Rattle.larch_sorts_counts.specs.Counts.{AllCounts, AreCounts, AreRead, TellsUnread};
ghost use Rattle.larch_sorts_counts.specs.Numbers.{number_of, numbers_under};
ghost use Rattle.larch_sorts_meaning.specs.Parts.{inner_parts, parts, parts_of};
ghost use Rattle.larch_sorts_counts.specs.declared.count.Count.TheVariants.{Once};

use crate::count::Count;
use crate::numbers::Numbers;
use crate::tally::{SortCounts, alone, count_at, counts_made, total};
use larch_sorts_meaning::from_base::{Memory, Name, Sequence};
use larch_sorts_meaning::from_raw::{RawNode, RawTerm, RawTerms};
use larch_sorts_meaning::from_term::Sort;
use larch_sorts_meaning::{ReadRefusal, Scope, head_of, variable_sort};
use std::alloc::Global;

/// How often a term reads at the sort of each number, with the same of its arguments where they were counted.
#[cycle(counted)]
pub struct Counted {
    /// How often it reads at the sort of each number, and last at sorts without a number.
    pub counts: SortCounts,
    /// The same of its arguments, or of the term that it qualifies.
    pub arguments: Vec<Counted>,
}

// By a call, so that a proof takes one apart in one place alone.
impl Drop for Counted {
    #[cycle(drops)]
    fn drop(self) {
        let Counted {
            counts: _counts,
            arguments: _arguments,
        } = self;
    }
}

/// How often a term reads at each sort, or the head token of the first part that has no reading. Nothing is answered
/// where a sort of an argument or of a qualification has no number.
#[cycle(counts)]
pub fn counts_of(
    alloc: Global,
    numbers: &Numbers,
    scope: &Scope,
    raw: &RawTerm,
) -> Result<Option<Counted>, ReadRefusal>
    ensures counts { IfOk result (λ found. IfSome found (λ counted.
        AreCounts numbers.now scope.now raw.now (counts_in counted))) }
    ensures read { IfOk result (λ found. IfSome found (λ _. AreRead numbers.now scope.now (parts raw.now))) }
    ensures unread { IfErr result (TellsUnread numbers.now scope.now (parts raw.now)) }
{
    let Some(counted) = counts_from_parts(alloc, numbers, scope, raw)? else {
        return Ok(None);
    };
    if let Count::Never = total(numbers.len(), &counted.counts) {
        return Err(ReadRefusal::NoReading(head_of(raw)));
    }
    Ok(Some(counted))
}

// How often a term reads at each sort, if at all, or the head token of the first part in it that has no reading.
#[cycle(counts)]
#[tactic(auto, using(larch_raw::specs::RawTree::raw_nodes_all_is_sum))]
fn counts_from_parts(
    alloc: Global,
    numbers: &Numbers,
    scope: &Scope,
    raw: &RawTerm,
) -> Result<Option<Counted>, ReadRefusal>
    ensures counts { IfOk result (λ found. IfSome found (λ counted.
        AreCounts numbers.now scope.now raw.now (counts_in counted))) }
    ensures read { IfOk result (λ found. IfSome found (λ _. AreRead numbers.now scope.now (inner_parts raw.now))) }
    ensures unread { IfErr result (TellsUnread numbers.now scope.now (inner_parts raw.now)) }
{
    match raw.node() {
        RawNode::Apply(name, arguments, _) => {
            if let Some(sort) = variable_sort(scope, name, arguments) {
                let counted = counts_of_variable(alloc, numbers, sort)?;
                return Ok(Some(counted));
            }
            if let Some(counts) = word(numbers, name, arguments) {
                let counted = copied(alloc, counts)?;
                return Ok(Some(counted));
            }
            let Some(arguments) = counts_of_all(alloc, numbers, scope, arguments)? else {
                return Ok(None);
            };
            let counted = apply_counts(alloc, numbers, name, arguments)?;
            Ok(Some(counted))
        }
        RawNode::Qualified(term, sort, _) => {
            let Some(counted) = counts_of(alloc, numbers, scope, term)? else {
                return Ok(None);
            };
            let counted = within(alloc, numbers, &sort.name, counted)?;
            Ok(counted)
        }
    }
}

// How often each of some arguments reads at each sort, or the head token of the first part of them that has no reading.
#[cycle(counts)]
#[tactic(auto, using(larch_raw::specs::RawTree::raw_nodes_all_is_sum))]
fn counts_of_all(
    alloc: Global,
    numbers: &Numbers,
    scope: &Scope,
    arguments: &RawTerms,
) -> Result<Option<Sequence<Counted>>, ReadRefusal>
    ensures counts { IfOk result (λ found. IfSome found (λ all.
        AllCounts numbers.now scope.now arguments.now (map counts_in all))) }
    ensures read { IfOk result (λ found. IfSome found (λ _.
        AreRead numbers.now scope.now (parts_of (raw_forest arguments.now)))) }
    ensures unread { IfErr result (TellsUnread numbers.now scope.now (parts_of (raw_forest arguments.now))) }
{
    let mut all = Sequence::new(alloc);
    for argument in arguments.as_slice() {
        let Some(counted) = counts_of(alloc, numbers, scope, argument)? else {
            return Ok(None);
        };
        let Count::Never = count_at(&counted.counts, numbers.len()) else {
            return Ok(None);
        };
        all.push(counted)?;
    }
    Ok(Some(all))
}

// The counts of what a name makes of no arguments, where it has none and they are kept.
fn word<'a>(numbers: &'a Numbers, name: &Name, arguments: &RawTerms) -> Option<&'a SortCounts>
    ensures { IfSome (option_copied result) (λ counts. (arguments.now ≡ [])
        × (Some counts ≡ lookup (bytes_eq name.now) numbers.now.words.entries)) }
{
    if !arguments.as_slice().is_empty() {
        return None;
    }
    numbers.word(name)
}

// These counts, of a term without arguments.
fn copied(alloc: Global, counts: &SortCounts) -> Result<Counted, Memory>
    ensures { IfOk result (λ counted. counts_in counted ≡ counts.now) }
{
    let counts = counts.copy(alloc)?;
    Ok(Counted {
        counts,
        arguments: Vec::new(alloc),
    })
}

// How often a variable of a sort reads at each sort.
fn counts_of_variable(alloc: Global, numbers: &Numbers, sort: &Sort) -> Result<Counted, Memory>
    ensures { IfOk result (λ counted. counts_in counted
        ≡ alone (length numbers.now.sorts.keys) (number_of numbers.now.sorts.keys sort.now) Once) }
{
    let counts = alone(alloc, numbers.len(), numbers.number(sort), Count::Once)?;
    Ok(Counted {
        counts,
        arguments: Vec::new(alloc),
    })
}

// How often the operators of a name make each sort of arguments.
fn apply_counts(
    alloc: Global,
    numbers: &Numbers,
    name: &Name,
    arguments: Sequence<Counted>,
) -> Result<Counted, Memory>
    ensures { IfOk result (λ counted. counts_in counted
        ≡ counts_made (length numbers.now.sorts.keys) (map counts_in arguments)
        (numbers_under numbers.now.names.entries name.now)) }
{
    let counts = counts_made(
        alloc,
        numbers.len(),
        numbers.named(name),
        arguments.as_slice(),
    )?;
    Ok(Counted {
        counts,
        arguments: arguments.into_vec(),
    })
}

// How often a term reads at a sort alone, where that has a number.
fn within(
    alloc: Global,
    numbers: &Numbers,
    sort: &Sort,
    counted: Counted,
) -> Result<Option<Counted>, Memory>
    ensures { IfOk result (λ found. IfSome found (λ now.
        (number_of numbers.now.sorts.keys sort.now < length numbers.now.sorts.keys)
        × (counts_in now ≡ alone (length numbers.now.sorts.keys) (number_of numbers.now.sorts.keys sort.now)
        (count_at (counts_in counted) (number_of numbers.now.sorts.keys sort.now))))) }
{
    let number = numbers.number(sort);
    if numbers.len() <= number {
        return Ok(None);
    }
    let count = count_at(&counted.counts, number);
    let counts = alone(alloc, numbers.len(), number, count)?;
    let mut arguments = Vec::with_capacity(alloc, 1)?;
    arguments.push(counted)?;
    Ok(Some(Counted { counts, arguments }))
}
