ghost use Rattle.std.specs.Option.{option_copied};
ghost use Rattle.std.specs.Prelude.{◌≡◌, Contains, IfOk, IfSome};
ghost use Rattle.larch_sorts_signature.specs.SortsMeaningReadings.{ReadAt, ReadsAt};
ghost use Rattle.larch_sorts_signature.specs.SortsMeaningSignature.{operators_named, taking_part};

use crate::narrow::variable_at;
use larch_base::{Memory, Name, Sequence};
use larch_raw::{RawNode, RawTerm, RawTerms};
use larch_sorts_signature::from_sorts_counts::tally::product;
use larch_sorts_signature::from_sorts_counts::{Count, Counted, Numbered};
use larch_sorts_signature::from_sorts_meaning::{Found, Scope, variable_sort};
use larch_sorts_signature::{Reading, Signature, maker_of};
use larch_term::{Operator, Sort};
use std::alloc::Global;

// What a term reads as at a sort, found by the counts of its parts where there is one reading.
#[cycle(pick)]
#[tactic(auto, using(larch_raw::specs::RawTree::raw_nodes_all_is_sum))]
pub(crate) fn picked_at(
    alloc: Global,
    signature: &Signature,
    scope: &Scope,
    raw: &RawTerm,
    counted: &Counted,
    sort: &Sort,
) -> Result<Option<Reading>, Memory>
    ensures { IfOk result (λ found. IfSome found (ReadsAt signature.now scope.now raw.now sort.now)) }
{
    match raw.node() {
        RawNode::Apply(name, arguments, _) => {
            if let Some(own) = variable_sort(scope, name, arguments) {
                let found = variable_at(alloc, name, own, sort)?;
                return Ok(found);
            }
            let counts = counted.arguments.as_slice();
            let Some(operator) = operator_at(signature, name, counts, sort)? else {
                return Ok(None);
            };
            let domain = operator.domain();
            let Some(readings) = all_picked(alloc, signature, scope, arguments, counts, domain)?
            else {
                return Ok(None);
            };
            let reading = Reading::app(alloc, operator, readings.into_vec())?;
            Ok(Some(reading))
        }
        RawNode::Qualified(term, own, _) => {
            if own.name != *sort {
                return Ok(None);
            }
            let Some(counted) = counted.arguments.as_slice().first() else {
                return Ok(None);
            };
            let found = picked_at(alloc, signature, scope, term, counted, sort)?;
            Ok(found)
        }
    }
}

// What arguments read as at sorts, found so one by one.
#[cycle(pick)]
#[tactic(auto, using(larch_raw::specs::RawTree::raw_nodes_all_is_sum))]
fn all_picked(
    alloc: Global,
    signature: &Signature,
    scope: &Scope,
    arguments: &RawTerms,
    counted: &[Counted],
    sorts: &[Sort],
) -> Result<Option<Sequence<Reading>>, Memory>
    ensures { IfOk result (λ found. IfSome found (ReadAt signature.now scope.now arguments.now sorts.now)) }
{
    let arguments = arguments.as_slice();
    if arguments.len() != sorts.len() || counted.len() != sorts.len() {
        return Ok(None);
    }
    let mut readings = Sequence::new(alloc);
    for i in 0..sorts.len() {
        let found = picked_at(
            alloc,
            signature,
            scope,
            &arguments[i],
            &counted[i],
            &sorts[i],
        )?;
        let Some(reading) = found else {
            return Ok(None);
        };
        readings.push(reading)?;
    }
    Ok(Some(readings))
}

// The operator of a name that makes a sort of arguments with these counts: the only one that makes it, or else the
// first for which each argument has one reading.
fn operator_at(
    signature: &Signature,
    name: &Name,
    arguments: &[Counted],
    sort: &Sort,
) -> Result<Option<Operator>, Memory>
    ensures { IfOk result (λ found. IfSome found (λ f.
        Contains (operators_named name.now (taking_part signature.now)) f × (f.range ≡ sort.now))) }
{
    match maker_of(signature, name, arguments.len(), sort)? {
        None => Ok(None),
        Some(Found::One(operator)) => Ok(Some(operator)),
        Some(Found::Several) => {
            let operator = operator_by_counts(signature, name, arguments, sort)?;
            Ok(operator)
        }
    }
}

// The first operator of a name that makes a sort of arguments of which each has one reading.
fn operator_by_counts(
    signature: &Signature,
    name: &Name,
    arguments: &[Counted],
    sort: &Sort,
) -> Result<Option<Operator>, Memory>
    ensures { IfOk result (λ found. IfSome found (λ f.
        Contains (operators_named name.now (taking_part signature.now)) f × (f.range ≡ sort.now))) }
{
    let (Some(numbers), Some(overloads)) = (signature.numbers(), signature.named(name)) else {
        return Ok(None);
    };
    let Some(place) = place_of(numbers.named(name), arguments, numbers.number(sort)) else {
        return Ok(None);
    };
    let operators = overloads.as_slice();
    if operators.len() <= place || *operators[place].range() != *sort {
        return Ok(None);
    }
    let operator = operators[place].copy()?;
    Ok(Some(operator))
}

// Where the first of these operators stands that makes the sort of a number of arguments of which each has one reading.
fn place_of(operators: &[Numbered], arguments: &[Counted], number: usize) -> Option<usize> {
    for i in 0..operators.len() {
        if operators[i].range as usize == number
            && is_once(arguments, operators[i].domain.as_slice())
        {
            return Some(i);
        }
    }
    None
}

// Whether arguments have these numbers, one by one, once.
fn is_once(arguments: &[Counted], numbers: &[u32]) -> bool {
    matches!(product(arguments, numbers), Count::Once)
}
