ghost use Rattle.std.specs.Prelude.{◌≡◌, ◌<◌, ◌+◌, ◌++◌, ◌∷◌, true, drop};
ghost use Rattle.std.specs.Prelude.{get_or, length, slice_get, take, IfOk, None, Some};
ghost use Rattle.larch_flat_meaning.specs.Gathered.{new_among, with_statement};
ghost use Rattle.std.specs.Prelude.{[], fold, false};
ghost use Rattle.larch_flat.specs.Known.{is_known};

use larch_base::{Fault, Memory};
use larch_flat::FlatTraits;
use larch_flat::from_flat_gathering::Flat;
use larch_flat::from_flat_statements::{MarkedStatements, new_among};
use larch_term::{Statement, Statements, copy_statement};
use std::alloc::Global;

// What is known of the file with a number.
pub(crate) fn known_of(flat_traits: &FlatTraits, number: usize) -> &Result<Flat, Fault>
    requires within { number < length flat_traits.now }
    requires known { is_known flat_traits.now number ≡ true }
    ensures { get_or flat_traits.now number None ≡ Some result.now }
{
    flat_traits.get(number).unwrap()
}

// The marked statement at a place.
pub(crate) fn marked_at(marked: &MarkedStatements, index: usize) -> (&Statement, bool)
    requires within { index < length marked.now }
    ensures left { drop index marked.now
        ≡ record { statement = result.0.now; assumed = result.1 } ∷ drop (index + 1) marked.now }
    ensures taken { take (index + 1) marked.now
        ≡ take index marked.now ++ record { statement = result.0.now; assumed = result.1 } ∷ [] }
{
    entry_at(marked, index)
}

// The same, as it is kept.
fn entry_at(marked: &MarkedStatements, index: usize) -> (&Statement, bool)
    requires { index < length marked.now }
    ensures { Some (record { statement = result.0.now; assumed = result.1 }) ≡ slice_get marked.now index }
{
    marked.get(index).unwrap()
}

// The statements that aren't to be discharged, each where it occurs first.
pub(crate) fn not_discharged(
    alloc: Global,
    discharge: &[Statement],
    statements: Statements,
) -> Result<Statements, Memory>
    ensures { IfOk result (λ found. found ≡ new_among discharge.now statements) }
{
    let known = asserted_statements(alloc, discharge)?;
    let found = new_among(alloc, &known, statements)?;
    Ok(found)
}

// Statements that are asserted.
fn asserted_statements(alloc: Global, statements: &[Statement]) -> Result<MarkedStatements, Memory>
    ensures { IfOk result (λ marked. marked ≡ fold (λ ms s. with_statement s false ms) [] statements.now) }
{
    let mut marked = MarkedStatements::new(alloc);
    for statement in statements {
        let copied = copy_statement(alloc, statement)?;
        marked.insert(copied, false)?;
    }
    Ok(marked)
}
