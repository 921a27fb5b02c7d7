ghost use Rattle.std.specs.Prelude.{◌≡◌, IfErr, IfOk, IfSome, None};
ghost use Rattle.larch_term.specs.Statement.{IsStatementOver};
ghost use Rattle.larch_term.specs.declared.statement.Statement.TheVariants.{Equation};
ghost use Rattle.larch_sorts_signature.specs.SortsMeaningRead.{read_equation, first_unread};
ghost use Rattle.larch_base.specs.Answering.{Answers};
ghost use Rattle.larch_sorts_signature.specs.SortsMeaningRefusal.{cause, Unread};
ghost use Rattle.larch_sorts_signature.specs.SortsMeaningScope.{IsInScope};
ghost use Rattle.larch_sorts_signature.specs.SortsMeaningUnknown.{unknown_sort};
ghost use Rattle.larch_sorts_signature.specs.SortsMeaningStands.{Stands};
ghost use Rattle.larch_sorts_signature.specs.SortsMeaningReadings.{ReadsEquation, IsOnly};
ghost use Rattle.larch_sorts_signature.specs.SortsMeaningFound.{Tells};
ghost use Rattle.larch_sorts.specs.Sides.{ReadsSides};

use crate::counted::counted_sides;
use crate::found::Sides;
use crate::sides::{formula, sides};
use crate::tabulate::table_of;
use crate::told::only_sides;
use crate::unknown::unknown_sort;
use larch_base::Memory;
use larch_raw::RawEquation;
use larch_sorts_signature::from_sorts_meaning::{Found, ReadRefusal, Scope, equation_head};
use larch_sorts_signature::{Signature, term_of};
use larch_term::Statement;
use std::alloc::Global;

/// The statement that an equation or formula reads as, or the first refusal.
pub fn read_in(
    alloc: Global,
    signature: &Signature,
    scope: &Scope,
    raw: &RawEquation,
) -> Result<Statement, ReadRefusal>
    ensures answers { Answers cause result (read_equation signature.now scope.now raw.now) }

    // The same in terms of readings.
    ensures known { IfOk result (λ _. unknown_sort signature.now raw.now ≡ None) }
    ensures only { IfOk result (IsOnly (ReadsEquation signature.now scope.now raw.now)) }
    ensures stands { IfErr result (λ refusal. IfSome (cause refusal)
        (Stands signature.now scope.now raw.now (ReadsEquation signature.now scope.now raw.now))) }

    // What a statement that is read is made of.
    ensures well_sorted { IfOk result (IsStatementOver signature.now) }
    ensures in_scope { IfOk result (IsInScope scope.now) }
{
    statement(alloc, signature, scope, raw)
}

// The same, by the only sides where the head of one tells their sort, else by all sides.
fn statement(
    alloc: Global,
    signature: &Signature,
    scope: &Scope,
    raw: &RawEquation,
) -> Result<Statement, ReadRefusal>
    ensures { Answers cause result (read_equation signature.now scope.now raw.now) }
{
    if let Some(pos) = unknown_sort(signature, raw) {
        return Err(ReadRefusal::UnknownSort(pos));
    }
    match only_sides(alloc, signature, scope, raw)? {
        Some(sides) => {
            let statement = equation(alloc, &sides)?;
            Ok(statement)
        }
        None => {
            let statement = by_sides(alloc, signature, scope, raw)?;
            Ok(statement)
        }
    }
}

// The same by all sides, where all sorts are known.
fn by_sides(
    alloc: Global,
    signature: &Signature,
    scope: &Scope,
    raw: &RawEquation,
) -> Result<Statement, ReadRefusal>
    requires { unknown_sort signature.now raw.now ≡ None }
    ensures { Answers cause result (read_equation signature.now scope.now raw.now) }
{
    match sides_of(alloc, signature, scope, raw)? {
        None => Err(ReadRefusal::NoReading(equation_head(raw))),
        Some(Found::Several) => Err(ReadRefusal::Ambiguous(raw.first)),
        Some(Found::One(sides)) => {
            let statement = equation(alloc, &sides)?;
            Ok(statement)
        }
    }
}

// The sides that an equation reads as, or the head token of the first part in them that has no reading: as counts tell,
// or else tables.
fn sides_of(
    alloc: Global,
    signature: &Signature,
    scope: &Scope,
    raw: &RawEquation,
) -> Result<Option<Found<Sides>>, ReadRefusal>
    ensures tells { IfOk result (λ found. Tells found (ReadsSides signature.now scope.now raw.now)) }
    ensures read { IfOk result (λ _. first_unread signature.now scope.now raw.now ≡ None) }
    ensures unread { IfErr result (λ refusal. Unread refusal (first_unread signature.now scope.now raw.now)) }
{
    if let Some(found) = counted_sides(alloc, signature, scope, raw)? {
        return Ok(found);
    }
    let found = sides_by_tables(alloc, signature, scope, raw)?;
    Ok(found)
}

// The same by tables.
fn sides_by_tables(
    alloc: Global,
    signature: &Signature,
    scope: &Scope,
    raw: &RawEquation,
) -> Result<Option<Found<Sides>>, ReadRefusal>
    ensures tells { IfOk result (λ found. Tells found (ReadsSides signature.now scope.now raw.now)) }
    ensures read { IfOk result (λ _. first_unread signature.now scope.now raw.now ≡ None) }
    ensures unread { IfErr result (λ refusal. Unread refusal (first_unread signature.now scope.now raw.now)) }
{
    let left = table_of(alloc, signature, scope, &raw.left)?;
    match &raw.right {
        None => {
            let found = formula(alloc, &left)?;
            Ok(found)
        }
        Some(right) => {
            let right = table_of(alloc, signature, scope, &right.term)?;
            let found = sides(&left, &right)?;
            Ok(found)
        }
    }
}

// The equation of two sides.
fn equation(alloc: Global, sides: &Sides) -> Result<Statement, Memory>
    ensures { IfOk result (λ statement. statement ≡ Equation sides.now.left sides.now.right) }
{
    let left = term_of(alloc, &sides.left)?;
    let right = term_of(alloc, &sides.right)?;
    Ok(Statement::Equation(left, right))
}
