//! The theory of a trait, and those of its clauses `converts`.
ghost use Rattle.std.specs.Prelude.{◌≡◌, ◌++◌, map, IfOk};
ghost use Rattle.larch_flat_meaning.specs.Gathered.{statements_in};
ghost use Rattle.larch_duties_meaning.specs.Conversions.{clause_theory, copy_of};
ghost use Rattle.larch_duties.specs.Kept.{theory_in};

use crate::clause::{Clause, Copied, copy_of};
use crate::implied::join_statements;
use crate::known::marked_at;
use larch_base::{Memory, Sequence};
use larch_flat::from_flat_gathering::Flat;
use larch_flat::from_flat_statements::MarkedStatements;
use larch_term::{Operators, Statements, Theory, copy_operators, copy_statement};
use std::alloc::Global;

// The theory of a flat trait.
pub(crate) fn theory_of(alloc: Global, flat: &Flat) -> Result<Theory, Memory>
    ensures { IfOk result (λ theory. theory ≡ theory_in flat.now) }
{
    let operators = copy_operators(alloc, flat.operators.as_slice())?;
    let statements = statements_of(alloc, &flat.marked)?;
    Ok(Theory {
        operators,
        statements,
    })
}

// The statements of marked ones.
fn statements_of(alloc: Global, marked: &MarkedStatements) -> Result<Statements, Memory>
    ensures { IfOk result (λ statements. statements ≡ statements_in marked.now) }
{
    let mut statements = Sequence::new(alloc);
    for index in 0..marked.len() {
        let (statement, _) = marked_at(marked, index);
        let statement = copy_statement(alloc, statement)?;
        statements.push(statement)?;
    }
    Ok(statements)
}

// The theory of a clause over that of its trait.
pub(crate) fn clause_theory(alloc: Global, flat: &Flat, clause: Clause) -> Result<Theory, Memory>
    ensures { IfOk result (λ theory. theory ≡ clause_theory (theory_in flat.now) clause) }
{
    let Theory {
        operators,
        statements,
    } = theory_of(alloc, flat)?;
    let Clause {
        copies,
        copied,
        exempt,
    } = clause;
    let operators = with_copies(alloc, operators, copies.as_slice())?;
    let added = join_statements(copied, exempt)?;
    let statements = join_statements(statements, added)?;
    Ok(Theory {
        operators,
        statements,
    })
}

// Operators with copies behind them.
fn with_copies(alloc: Global, operators: Operators, copies: &[Copied]) -> Result<Operators, Memory>
    ensures { IfOk result (λ all. all ≡ operators ++ map copy_of copies.now) }
{
    let mut all = operators;
    for copied in copies {
        let copy = copy_of(alloc, copied)?;
        all.push(copy)?;
    }
    Ok(all)
}
