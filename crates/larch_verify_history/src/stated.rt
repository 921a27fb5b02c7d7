ghost use Rattle.std.specs.Prelude.{◌≡◌, ◌↔◌, ◌<◌, length, IsTrue, IfOk, OnOk};
ghost use Rattle.larch_verify_pool.specs.Pooled.{tree_in, Grows};
ghost use Rattle.larch_verify_history.specs.Past.{equated_in, stated_in, IsEquated, IsStated};

use larch_base::Memory;
use larch_term::{Operators, Sort, Statement, copy_operators, same_operators};
use larch_verify_pool::{Pool, intern_term};
use std::alloc::Global;

/// The numbers of two terms that are equal.
#[derive(Clone, Copy, Drop)]
pub struct Equated {
    pub left: u32,
    pub right: u32,
}

/// A statement by numbers of a pool.
pub enum Stated {
    Equal(Equated),
    Generates(Sort, Operators),
    Partitions(Sort, Operators),
}

// By a call, so that a proof takes a statement apart in one place alone.
impl Drop for Stated {
    fn drop(self) {
        match self {
            Stated::Equal(_it) => {}
            Stated::Generates(_first, _second) => {}
            Stated::Partitions(_first, _second) => {}
        }
    }
}

// The same statement once more.
pub fn copy_stated(alloc: Global, stated: &Stated) -> Result<Stated, Memory>
    ensures { IfOk result (λ s. s ≡ stated.now) }
{
    match stated {
        Stated::Equal(sides) => Ok(Stated::Equal(*sides)),
        Stated::Generates(sort, operators) => {
            let sort = sort.copy()?;
            let operators = copy_operators(alloc, operators.as_slice())?;
            Ok(Stated::Generates(sort, operators))
        }
        Stated::Partitions(sort, operators) => {
            let sort = sort.copy()?;
            let operators = copy_operators(alloc, operators.as_slice())?;
            Ok(Stated::Partitions(sort, operators))
        }
    }
}

// Whether two equations are one.
pub fn same_equated(pool: &Pool, one: Equated, other: Equated) -> bool
    requires one { IsEquated pool.now one }
    requires other { IsEquated pool.now other }
    ensures { IsTrue result ↔ (equated_in pool.now one ≡ equated_in pool.now other) }
{
    pool.same(one.left, other.left) && pool.same(one.right, other.right)
}

// Whether two statements are one.
pub fn same_stated(pool: &Pool, one: &Stated, other: &Stated) -> bool
    requires one { IsStated pool.now one.now }
    requires other { IsStated pool.now other.now }
    ensures { IsTrue result ↔ (stated_in pool.now one.now ≡ stated_in pool.now other.now) }
{
    match (one, other) {
        (Stated::Equal(sides), Stated::Equal(others)) => same_equated(pool, *sides, *others),
        (Stated::Generates(sort, operators), Stated::Generates(other, others)) => {
            sort == other && same_operators(operators.as_slice(), others.as_slice())
        }
        (Stated::Partitions(sort, operators), Stated::Partitions(other, others)) => {
            sort == other && same_operators(operators.as_slice(), others.as_slice())
        }
        _ => false,
    }
}

// A statement's terms as numbers.
pub fn intern_statement(
    alloc: Global,
    pool: &mut Pool,
    statement: &Statement,
) -> Result<Stated, Memory>
    ensures within { IfOk result (λ s. IsStated pool.new s) }
    ensures says { IfOk result (λ s. stated_in pool.new s ≡ statement.now) }
    ensures grows { OnOk result (Grows pool.old pool.new) }
{
    match statement {
        Statement::Equation(left, right) => {
            let left = intern_term(alloc, pool, left)?;
            let right = intern_term(alloc, pool, right)?;
            Ok(Stated::Equal(Equated { left, right }))
        }
        Statement::Generated(sort, operators) => {
            let sort = sort.copy()?;
            let operators = copy_operators(alloc, operators.as_slice())?;
            Ok(Stated::Generates(sort, operators))
        }
        Statement::Partitioned(sort, operators) => {
            let sort = sort.copy()?;
            let operators = copy_operators(alloc, operators.as_slice())?;
            Ok(Stated::Partitions(sort, operators))
        }
    }
}
