ghost use Rattle.std.specs.Prelude.{◌≡◌, if◌then◌else◌, true, false, IfOk, IfSome, OnOk, Option, Some, None, List, ℕ};
ghost use Rattle.std.specs.Option.{option_map, option_and_then};
ghost use Rattle.larch_base.specs.ByNumber.{numbered};
ghost use Rattle.larch_term.specs.BuiltIn.{bool_sort};
ghost use Rattle.larch_tables.specs.Tables.{built_in_rows};
ghost use Rattle.larch_verify_meaning.specs.Rules.{row_says};
ghost use Rattle.larch_verify_pool.specs.Pooled.{Grows};
ghost use Rattle.larch_verify_history.specs.Past.{IsStated, stated_in};
ghost use Rattle.larch_verify_rules.specs.Row.{row_at, has_mark};

use larch_base::Memory;
use larch_tables::{RowRefusal, built_in, row_statement};
use larch_term::{Sort, Statement, bool_sort};
use larch_verify_history::{Stated, intern_statement};
use larch_verify_pool::Pool;
use std::alloc::Global;

/// The equation of a row, at a sort where it has one and without a sort where it has none.
pub fn judge_row(
    alloc: Global,
    pool: &mut Pool,
    number: u64,
    sort: &Option<Sort>,
) -> Result<Option<Stated>, Memory>
    ensures within { IfOk result (λ o. IfSome o (IsStated pool.new)) }
    ensures says { IfOk result (λ o. option_map (stated_in pool.new) o ≡ row_says number sort.now) }
    ensures grows { OnOk result (Grows pool.old pool.new) }
{
    match sort {
        Some(sort) => {
            let stated = row_with(alloc, pool, number, sort, true)?;
            Ok(stated)
        }
        None => {
            let truth = bool_sort(alloc)?;
            let stated = row_with(alloc, pool, number, &truth, false)?;
            Ok(stated)
        }
    }
}

// The equation of a row at a sort, if it has a sort of its own exactly where that is wanted.
fn row_with(
    alloc: Global,
    pool: &mut Pool,
    number: u64,
    sort: &Sort,
    sorted: bool,
) -> Result<Option<Stated>, Memory>
    requires { sorted ≡ false → sort.now ≡ bool_sort }
    ensures within { IfOk result (λ o. IfSome o (IsStated pool.new)) }
    ensures says { IfOk result (λ o. option_map (stated_in pool.new) o
        ≡ row_at sorted (numbered (built_in_rows sort.now) number)) }
    ensures grows { OnOk result (Grows pool.old pool.new) }
{
    let statement = row_equation(alloc, number, sort, sorted)?;
    let Some(statement) = statement else {
        return Ok(None);
    };
    let stated = intern_statement(alloc, pool, &statement)?;
    Ok(Some(stated))
}

// Likewise, as a statement of terms.
fn row_equation(
    alloc: Global,
    number: u64,
    sort: &Sort,
    sorted: bool,
) -> Result<Option<Statement>, Memory>
    requires { sorted ≡ false → sort.now ≡ bool_sort }
    ensures { IfOk result (λ o. o ≡ row_at sorted (numbered (built_in_rows sort.now) number)) }
{
    let Ok(number) = u32::try_from(number) else {
        return Ok(None);
    };
    if !has_row(number, sorted) {
        return Ok(None);
    }
    match row_statement(alloc, number, sort) {
        Ok(statement) => Ok(Some(statement)),
        Err(RowRefusal::NoRow) => Ok(None),
        Err(RowRefusal::Memory) => Err(Memory),
    }
}

// Whether there is a row with the number that has a sort of its own exactly where that is wanted.
fn has_row(number: u32, sorted: bool) -> bool
    ensures { (s : List ℕ) → result ≡ has_mark sorted (numbered (built_in_rows s) number) }
{
    let Some(row) = built_in().row(number) else {
        return false;
    };
    if row.sorted { sorted } else { !sorted }
}
