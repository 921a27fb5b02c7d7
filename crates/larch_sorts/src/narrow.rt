ghost use Rattle.std.specs.Prelude.{◌≡◌, IfOk, IfSome, Some, None, cond, bytes_eq};
ghost use Rattle.std.specs.Option.{option_copied};
ghost use Rattle.larch_term.specs.Tree.{var};
ghost use Rattle.larch_sorts_signature.specs.SortsMeaningReadings.{ReadAt, ReadsAt, IsOnly};
ghost use Rattle.larch_sorts.specs.Narrow.{application_of, the_one};

use crate::counted::counted_at;
use crate::tabulate::table_of;
use larch_base::{Memory, Name, Sequence};
use larch_raw::{RawNode, RawTerm, RawTerms};
use larch_sorts_signature::from_sorts_meaning::{Found, ReadRefusal, Scope, variable_sort};
use larch_sorts_signature::table::at;
use larch_sorts_signature::{Reading, Signature, maker_of};
use larch_term::{Operator, Sort};
use std::alloc::Global;

// What a term reads as at a sort, if that is one thing. It goes down where one operator makes the sort, and where
// several do it asks the counts of the term, or else its table.
#[cycle(narrow)]
#[tactic(auto, using(larch_raw::specs::RawTree::raw_nodes_all_is_sum))]
pub(crate) fn only_at(
    alloc: Global,
    signature: &Signature,
    scope: &Scope,
    raw: &RawTerm,
    sort: &Sort,
) -> Result<Option<Reading>, Memory>
    ensures { IfOk result (λ found. IfSome found
        (IsOnly (ReadsAt signature.now scope.now raw.now sort.now))) }
{
    match raw.node() {
        RawNode::Apply(name, arguments, _) => {
            if let Some(own) = variable_sort(scope, name, arguments) {
                let found = variable_at(alloc, name, own, sort)?;
                return Ok(found);
            }
            match maker_of(signature, name, arguments.as_slice().len(), sort)? {
                None => Ok(None),
                Some(Found::Several) => {
                    let found = only_told(alloc, signature, scope, raw, sort)?;
                    Ok(found)
                }
                Some(Found::One(operator)) => {
                    let found = only_arguments(
                        alloc,
                        signature,
                        scope,
                        arguments,
                        operator.domain(),
                    )?;
                    let found = apply_found(alloc, operator, found)?;
                    Ok(found)
                }
            }
        }
        RawNode::Qualified(term, own, _) => {
            if own.name != *sort {
                return Ok(None);
            }
            let found = only_at(alloc, signature, scope, term, sort)?;
            Ok(found)
        }
    }
}

// What arguments read as at sorts, if each is one thing.
#[cycle(narrow)]
#[tactic(auto, using(larch_raw::specs::RawTree::raw_nodes_all_is_sum))]
fn only_arguments(
    alloc: Global,
    signature: &Signature,
    scope: &Scope,
    arguments: &RawTerms,
    sorts: &[Sort],
) -> Result<Option<Sequence<Reading>>, Memory>
    ensures { IfOk result (λ found. IfSome found
        (IsOnly (ReadAt signature.now scope.now arguments.now sorts.now))) }
{
    let arguments = arguments.as_slice();
    if arguments.len() != sorts.len() {
        return Ok(None);
    }
    let mut readings = Sequence::new(alloc);
    for i in 0..sorts.len() {
        let Some(reading) = only_at(alloc, signature, scope, &arguments[i], &sorts[i])? else {
            return Ok(None);
        };
        readings.push(reading)?;
    }
    Ok(Some(readings))
}

// What a variable reads as at a sort.
pub(crate) fn variable_at(
    alloc: Global,
    name: &Name,
    own: &Sort,
    sort: &Sort,
) -> Result<Option<Reading>, Memory>
    ensures { IfOk result (λ found. found ≡ cond (bytes_eq own.now sort.now) (Some (var name.now own.now)) None) }
{
    if *own != *sort {
        return Ok(None);
    }
    let copied = own.copy()?;
    let name = name.copy()?;
    let reading = Reading::var(alloc, name, copied)?;
    Ok(Some(reading))
}

// An operator with the arguments that were found.
fn apply_found(
    alloc: Global,
    operator: Operator,
    found: Option<Sequence<Reading>>,
) -> Result<Option<Reading>, Memory>
    ensures { IfOk result (λ reading. reading ≡ application_of operator found) }
{
    let Some(arguments) = found else {
        return Ok(None);
    };
    let reading = Reading::app(alloc, operator, arguments.into_vec())?;
    Ok(Some(reading))
}

// What the counts of a term tell at a sort, or else its table, if that is one thing.
fn only_told(
    alloc: Global,
    signature: &Signature,
    scope: &Scope,
    raw: &RawTerm,
    sort: &Sort,
) -> Result<Option<Reading>, Memory>
    ensures { IfOk result (λ found. IfSome found
        (IsOnly (ReadsAt signature.now scope.now raw.now sort.now))) }
{
    match counted_at(alloc, signature, scope, raw, sort) {
        Err(ReadRefusal::Memory) => Err(Memory),
        Err(_) => Ok(None),
        Ok(Some(Some(Found::One(reading)))) => Ok(Some(reading)),
        Ok(Some(_)) => Ok(None),
        Ok(None) => {
            let found = only_in_table(alloc, signature, scope, raw, sort)?;
            Ok(found)
        }
    }
}

// What the table of a term has at a sort, if that is one thing.
fn only_in_table(
    alloc: Global,
    signature: &Signature,
    scope: &Scope,
    raw: &RawTerm,
    sort: &Sort,
) -> Result<Option<Reading>, Memory>
    ensures { IfOk result (λ found. IfSome found
        (IsOnly (ReadsAt signature.now scope.now raw.now sort.now))) }
{
    match table_of(alloc, signature, scope, raw) {
        Err(ReadRefusal::Memory) => Err(Memory),
        Err(_) => Ok(None),
        Ok(table) => {
            let found = the_one(at(&table, sort))?;
            Ok(found)
        }
    }
}

// The one thing that was found, if there is one.
fn the_one(found: Option<&Found<Reading>>) -> Result<Option<Reading>, Memory>
    ensures { IfOk result (λ one. one ≡ the_one (option_copied found.entry)) }
{
    match found {
        Some(Found::One(reading)) => {
            let reading = reading.copy()?;
            Ok(Some(reading))
        }
        _ => Ok(None),
    }
}
