ghost use Rattle.std.specs.Prelude.{◌≡◌, ℕ, List, IfOk, IfErr, Some, None, map, cond, bytes_eq};
ghost use Rattle.larch_raw.specs.RawTree.{raw_forest};
ghost use Rattle.larch_sorts_signature.specs.SortsMeaningRead.{unread_in};
ghost use Rattle.larch_sorts_signature.specs.SortsMeaningParts.{head_of, parts, parts_of, inner_parts};
ghost use Rattle.larch_sorts_signature.specs.SortsMeaningReadings.{Reads, variable_sort};
ghost use Rattle.larch_sorts_signature.specs.SortsMeaningFoundFound.TheVariants.{One};
ghost use Rattle.larch_term.specs.Tree.{var};
ghost use Rattle.larch_sorts.specs.Tabulate.{AllTell, TableTells};
ghost use Rattle.larch_sorts_signature.specs.SortsMeaningRefusal.{Unread};
ghost use Rattle.larch_sorts_signature.specs.Table.{reading_at};

use larch_base::{Memory, Name, Sequence};
use larch_raw::{RawNode, RawTerm, RawTerms};
use larch_sorts_signature::application::apply_named;
use larch_sorts_signature::from_sorts_meaning::{
    Found, ReadRefusal, Scope, head_of, variable_sort,
};
use larch_sorts_signature::table::{narrow_to, single};
use larch_sorts_signature::{Reading, Signature, Table};
use larch_term::Sort;
use std::alloc::Global;

// What a term reads as, or the head token of the first part that has no reading.
#[cycle(tabulate)]
#[tactic(auto, using(larch_sorts_meaning::proofs::Unread::unread_inside, crate::proofs::Tables::unread_here, crate::proofs::Tables::read_here))]
pub(crate) fn table_of(
    alloc: Global,
    signature: &Signature,
    scope: &Scope,
    raw: &RawTerm,
) -> Result<Table, ReadRefusal>
    ensures tells { IfOk result (λ table. TableTells table.found.value.entries
        (Reads signature.now scope.now raw.now)) }
    ensures read { IfOk result (λ _. unread_in signature.now scope.now (parts raw.now) ≡ None) }
    ensures unread { IfErr result (λ refusal. Unread refusal (unread_in signature.now scope.now (parts raw.now))) }
{
    let table = table_from_parts(alloc, signature, scope, raw)?;
    if table.found.is_empty() {
        return Err(ReadRefusal::NoReading(head_of(raw)));
    }
    Ok(table)
}

// What a term reads as, if anything, or the head token of the first part in it that has no reading.
#[cycle(tabulate)]
#[tactic(auto, using(larch_raw::specs::RawTree::raw_nodes_all_is_sum))]
fn table_from_parts(
    alloc: Global,
    signature: &Signature,
    scope: &Scope,
    raw: &RawTerm,
) -> Result<Table, ReadRefusal>
    ensures tells { IfOk result (λ table. TableTells table.found.value.entries
        (Reads signature.now scope.now raw.now)) }
    ensures read { IfOk result (λ _. unread_in signature.now scope.now (inner_parts raw.now) ≡ None) }
    ensures unread { IfErr result (λ refusal. Unread refusal
        (unread_in signature.now scope.now (inner_parts raw.now))) }
{
    match raw.node() {
        RawNode::Apply(name, arguments, _) => {
            if let Some(sort) = variable_sort(scope, name, arguments) {
                let table = table_of_variable(alloc, name, sort)?;
                return Ok(table);
            }
            let tables = tables_of(alloc, signature, scope, arguments)?;
            let table = apply_named(alloc, tables.as_slice(), signature.named(name))?;
            Ok(table)
        }
        RawNode::Qualified(term, sort, _) => {
            let table = table_of(alloc, signature, scope, term)?;
            let narrow = narrow_to(alloc, &table, &sort.name)?;
            Ok(narrow)
        }
    }
}

// What arguments read as, or the head token of the first part of them that has no reading.
#[cycle(tabulate)]
#[tactic(auto, using(larch_raw::specs::RawTree::raw_nodes_all_is_sum))]
fn tables_of(
    alloc: Global,
    signature: &Signature,
    scope: &Scope,
    arguments: &RawTerms,
) -> Result<Sequence<Table>, ReadRefusal>
    ensures tell { IfOk result (λ tables. AllTell signature.now scope.now
        (map (λ t. t.found.value.entries) tables) arguments.now) }
    ensures read { IfOk result (λ _. unread_in signature.now scope.now (parts_of (raw_forest arguments.now)) ≡ None) }
    ensures unread { IfErr result (λ refusal. Unread refusal
        (unread_in signature.now scope.now (parts_of (raw_forest arguments.now)))) }
{
    let mut tables = Sequence::new(alloc);
    for argument in arguments.as_slice() {
        let table = table_of(alloc, signature, scope, argument)?;
        tables.push(table)?;
    }
    Ok(tables)
}

// What a variable reads as.
fn table_of_variable(alloc: Global, name: &Name, sort: &Sort) -> Result<Table, Memory>
    ensures { IfOk result (λ table. (s : List ℕ)
        → reading_at table.found.value.entries s
        ≡ cond (bytes_eq sort.now s) (Some (One (var name.now sort.now))) None) }
{
    let copied = sort.copy()?;
    let name = name.copy()?;
    let reading = Reading::var(alloc, name, copied)?;
    let table = single(alloc, sort, Found::One(reading))?;
    Ok(table)
}
