ghost use Rattle.std.specs.Prelude.{◌≡◌, IfOk, OnOk};
ghost use Rattle.larch_flat_meaning.specs.Gathered.{new_among, statements_in, with_new};
ghost use Rattle.larch_flat_statements.specs.Marks.{stated_in};

use crate::key::StatementKey;
use crate::marked::MarkedStatements;
use indexmap::IndexSet;
use larch_base::{Memory, Sequence};
use larch_term::{Statement, Statements};
use std::alloc::Global;

/// The statements that don't stand among those known, each where it occurs first. It takes as long as they are large.
pub fn new_among(
    alloc: Global,
    known: &MarkedStatements,
    statements: Statements,
) -> Result<Statements, Memory>
    ensures { IfOk result (λ found. found ≡ new_among (statements_in known.now) statements) }
{
    let mut found = IndexSet::new(alloc);
    for statement in statements.into_vec() {
        if !known.contains(&statement) {
            put_new(&mut found, statement)?;
        }
    }
    let statements = statements_of(alloc, found)?;
    Ok(statements)
}

// Puts a statement behind the others, unless it is there.
fn put_new(found: &mut IndexSet<StatementKey>, statement: Statement) -> Result<(), Memory>
    ensures { OnOk result (stated_in found.new.keys ≡ with_new (stated_in found.old.keys) statement) }
{
    found.insert(StatementKey { statement })?;
    Ok(())
}

// The statements of keys.
fn statements_of(alloc: Global, keys: IndexSet<StatementKey>) -> Result<Statements, Memory>
    ensures { IfOk result (λ statements. statements ≡ stated_in keys.keys) }
{
    let mut statements = Sequence::new(alloc);
    for key in keys {
        let StatementKey { statement } = key;
        statements.push(statement)?;
    }
    Ok(statements)
}
