ghost use Rattle.std.specs.Prelude.{◌≡◌, ◌||◌, bytes_eq, IfOk, IsErrOf, Some, None};
ghost use Rattle.larch_calculus.specs.TermBuiltIn.{bool_sort};
ghost use Rattle.larch_tables.specs.Statement.{offered_row, IsIdentityStatement};
ghost use Rattle.larch_tables.specs.declared.statement.RowRefusal.TheVariants.{Memory as wants_memory};

use crate::row::Row;
use crate::spelling::equation_of;
use crate::tables::built_in;
use larch_calculus::from_base::Memory;
use larch_calculus::from_term::{Sort, Statement};
use std::alloc::Global;
use thiserror::Error;

/// Why there is no statement of a row.
#[derive(Clone, Copy, Debug, PartialEq, Eq, Error)]
pub enum RowRefusal {
    /// There is no such row, or it isn't offered at the sort.
    #[error("no such row")]
    NoRow,
    /// Out of memory.
    #[error("out of memory")]
    Memory,
}

impl From<Memory> for RowRefusal {
    ghost from_gives = { λ _ refusal. refusal ≡ wants_memory };

    fn from(_memory: Memory) -> RowRefusal {
        RowRefusal::Memory
    }
}

fn is_offered(row: &Row, sort: &Sort) -> bool
    ensures { result ≡ (row.now.sorted || bytes_eq sort.now bool_sort) }
{
    row.sorted || sort.bytes() == b"Bool".as_slice()
}

/// The equation of the built-in row with a number, counted from 1, at a sort. `NoRow` comes exactly where no row has
/// the number or the row isn't offered at the sort: a row without a sort of its own is offered at Bool alone.
pub fn row_statement(alloc: Global, number: u32, sort: &Sort) -> Result<Statement, RowRefusal>
    ensures row { IfOk result (λ statement. offered_row number sort.now ≡ Some statement) }
    ensures no_row { IsErrOf result RowRefusal.NoRow → offered_row number sort.now ≡ None }
    ensures identity { IfOk result (λ statement. IsIdentityStatement statement) }
{
    let Some(row) = built_in().row(number) else {
        return Err(RowRefusal::NoRow);
    };
    if !is_offered(&row, sort) {
        return Err(RowRefusal::NoRow);
    }
    let equation = equation_of(alloc, &row.given, sort)?;
    equation.ok_or(RowRefusal::NoRow)
}
