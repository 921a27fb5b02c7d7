ghost use Rattle.std.specs.Prelude.{◌≡◌, ◌<◌, ℕ, List, Option, IfOk, IfSome, OnOk, fold, map, length};
ghost use Rattle.std.specs.Option.{option_copied};
ghost use Rattle.larch_sorts_signature.specs.Application.{found_by};
ghost use Rattle.larch_sorts_signature.specs.Domains.{domains_of, found_among};
ghost use Rattle.larch_sorts_signature.specs.Operators.{operators_at, with_operator};
ghost use Rattle.larch_sorts_signature.specs.Overloads.{IsMade};
ghost use Rattle.larch_sorts_signature.specs.Places.{IsPlaced};
ghost use Rattle.larch_sorts_counts.specs.SortsMeaningSignature.{kept};
ghost use Rattle.larch_sorts_signature.specs.Table.{sorts_in, reading_at};

use crate::domain::Domain;
use crate::domains::{Domains, count_of, domains_of};
use crate::operators::{add_operators, by_operators};
use crate::overloads::Overloads;
use crate::places::Places;
use crate::reading::Reading;
use crate::table::Table;
use indexmap::IndexMap;
use larch_base::{Memory, Name};
use larch_sorts_counts::from_sorts_meaning::Found;
use std::alloc::Global;

// Arguments of few sorts are looked at first, and those of more only where the fewer leave more operators than that.
const LIMITS: [usize; 4] = [1, 32, 1_024, 1_000_000_000];

// An argument by whose sorts operators are found, and how many are.
#[derive(Clone, Copy)]
struct Choice {
    position: Option<usize>,
    count: usize,
}

/// What the operators of one name make of the arguments in tables.
pub fn apply_named(
    alloc: Global,
    tables: &[Table],
    overloads: Option<&Overloads>,
) -> Result<Table, Memory>
    ensures { IfOk result (λ table. IsMade table.found.value.entries (map (λ t. t.found.value.entries) tables.now)
        (kept (option_copied overloads.entry))) }
{
    match overloads {
        None => {
            let table = Table::new(alloc, IndexMap::new(alloc))?;
            Ok(table)
        }
        Some(overloads) => {
            let table = by_overloads(alloc, tables, overloads)?;
            Ok(table)
        }
    }
}

fn by_overloads(alloc: Global, tables: &[Table], overloads: &Overloads) -> Result<Table, Memory>
    ensures { IfOk result (λ table. IsMade table.found.value.entries (map (λ t. t.found.value.entries) tables.now)
        overloads.now) }
{
    if tables.is_empty() {
        let table = overloads.constants().copy()?;
        return Ok(table);
    }
    if let Some(places) = overloads.places() {
        let choice = narrowest(tables, places, overloads.as_slice().len())?;
        if count_of(tables) < choice.count {
            let table = by_domain(alloc, tables, places.domains())?;
            return Ok(table);
        }
        if let Some(position) = choice.position {
            let table = by_place(alloc, tables, places, position, &tables[position])?;
            return Ok(table);
        }
    }
    let table = by_operators(alloc, tables, overloads.as_slice())?;
    Ok(table)
}

// What the operators make of the arguments in tables that take a sort of each argument.
fn by_domain(alloc: Global, tables: &[Table], domains: &Domains) -> Result<Table, Memory>
    ensures { IfOk result (λ table. (s : List ℕ)
        → reading_at table.found.value.entries s
        ≡ operators_at (map (λ t. t.found.value.entries) tables.now)
        (found_among domains.now.kept.entries (domains_of (map (λ t. t.found.value.entries) tables.now))) s) }
{
    let among = domains_of(alloc, tables)?;
    let mut entries = IndexMap::new(alloc);
    add_by_domains(alloc, tables, domains, among.as_slice(), &mut entries)?;
    let table = Table::new(alloc, entries)?;
    Ok(table)
}

// Adds what the operators with these domains make of the arguments in tables.
fn add_by_domains(
    alloc: Global,
    tables: &[Table],
    domains: &Domains,
    among: &[Domain],
    entries: &mut IndexMap<Name, Found<Reading>>,
) -> Result<(), Memory>
    ensures { OnOk result ((s : List ℕ)
        → reading_at entries.new.entries s
        ≡ fold (with_operator (map (λ t. t.found.value.entries) tables.now) s) (reading_at entries.old.entries s)
        (found_among domains.now.kept.entries among.now)) }
{
    for domain in among {
        add_operators(alloc, tables, domains.at(domain), entries)?;
    }
    Ok(())
}

// What the operators make of the arguments in tables that take a sort of one of the arguments at its position.
fn by_place(
    alloc: Global,
    tables: &[Table],
    places: &Places,
    position: usize,
    argument: &Table,
) -> Result<Table, Memory>
    ensures { IfOk result (λ table. (s : List ℕ)
        → reading_at table.found.value.entries s
        ≡ operators_at (map (λ t. t.found.value.entries) tables.now)
        (found_by places.now.kept.entries (length tables.now) position (sorts_in argument.now.found.value.entries)) s) }
{
    let mut entries = IndexMap::new(alloc);
    for sort in argument.found.keys() {
        let operators = places.at(tables.len(), position, sort)?;
        add_operators(alloc, tables, operators, &mut entries)?;
    }
    let table = Table::new(alloc, entries)?;
    Ok(table)
}

// The argument by whose sorts the fewest operators are found, where those are fewer than all.
fn narrowest(tables: &[Table], places: &Places, all: usize) -> Result<Choice, Memory>
    ensures { IfOk result (λ choice. IfSome choice.position (λ position. position < length tables.now)) }
{
    let mut choice = Choice {
        position: None,
        count: all,
    };
    for limit in &LIMITS {
        if choice.count > *limit {
            choice = narrowed_to(tables, places, *limit, choice)?;
        }
    }
    Ok(choice)
}

// The same among the arguments with at most so many sorts, and the choice before.
fn narrowed_to(
    tables: &[Table],
    places: &Places,
    limit: usize,
    before: Choice,
) -> Result<Choice, Memory>
    requires { IfSome before.position (λ position. position < length tables.now) }
    ensures { IfOk result (λ choice. IfSome choice.position (λ position. position < length tables.now)) }
{
    let mut choice = before;
    for position in 0..tables.len() {
        let sorts = tables[position].found.len();
        if sorts <= limit && sorts < choice.count {
            let count = places.count(tables.len(), position, &tables[position])?;
            if count < choice.count {
                choice = Choice {
                    position: Some(position),
                    count,
                };
            }
        }
    }
    Ok(choice)
}
