ghost use Rattle.std.specs.Prelude.{◌≡◌, ◌==◌, not, map, IfOk, position};
ghost use Rattle.std.specs.List.{list_all};
ghost use Rattle.larch_term.specs.Equality.{same_statement};
ghost use Rattle.larch_verify_meaning.specs.RenamingRenaming.{renamed_statement};
ghost use Rattle.larch_import_names.specs.Names.{renaming};
ghost use Rattle.larch_import_places.specs.Places.{place_among, places_by};

use larch_base::{Memory, Sequence};
use larch_certificate::Numbers;
use larch_import_names::{Renaming, rename_statement};
use larch_term::{Statement, Theory, same_statement};
use std::alloc::Global;

/// The places of the first theory's statements among the second one's, by new names.
pub fn places_by(
    alloc: Global,
    by: &Renaming,
    source: &Theory,
    target: &Theory,
) -> Result<Numbers, Memory>
    ensures { IfOk result (λ places. places ≡ places_by by.now source.now target.now) }
{
    let places = places_of(
        alloc,
        by,
        source.statements.as_slice(),
        target.statements.as_slice(),
    )?;
    Ok(places)
}

fn places_of(
    alloc: Global,
    by: &Renaming,
    statements: &[Statement],
    others: &[Statement],
) -> Result<Numbers, Memory>
    ensures { IfOk result (λ places. places
        ≡ map (λ s. place_among others.now (renamed_statement (renaming by.now) s)) statements.now) }
{
    let mut places = Sequence::new(alloc);
    for statement in statements {
        let place = new_place(alloc, by, statement, others)?;
        places.push(place)?;
    }
    Ok(places)
}

fn new_place(
    alloc: Global,
    by: &Renaming,
    statement: &Statement,
    others: &[Statement],
) -> Result<u64, Memory>
    ensures { IfOk result (λ place. place
        ≡ place_among others.now (renamed_statement (renaming by.now) statement.now)) }
{
    let new = rename_statement(alloc, by, statement)?;
    let place = place_among(others, &new);
    Ok(place)
}

fn place_among(statements: &[Statement], statement: &Statement) -> u64
    ensures { result ≡ place_among statements.now statement.now }
{
    match first_among(statements, statement) {
        Some(place) => place as u64 + 1,
        None => 0,
    }
}

fn first_among(statements: &[Statement], statement: &Statement) -> Option<usize>
    ensures { result ≡ position (λ z. same_statement z statement.now) statements.now }
{
    statements
        .iter()
        .position(|other| is_same(other, statement))
}

fn is_same(left: &Statement, right: &Statement) -> bool
    ensures { result ≡ same_statement left.now right.now }
{
    same_statement(left, right)
}

/// Whether no number is 0.
pub fn are_found(numbers: &[u64]) -> bool
    ensures { result ≡ list_all (λ n. not (n == 0)) numbers.now }
{
    numbers.iter().all(|number| *number != 0)
}
