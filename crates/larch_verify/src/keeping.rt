ghost use Rattle.std.specs.Prelude.{◌≡◌, IfOk, OnOk, All, Some, map};
ghost use Rattle.std.specs.List.{slice_get};
ghost use Rattle.larch_verify_pool.specs.Pooled.{Grows};
ghost use Rattle.larch_verify_history.specs.Past.{IsStated, stated_in};

use larch_base::Memory;
use larch_term::{Operator, Statement};
use larch_verify_history::{Stated, intern_statement};
use larch_verify_pool::{Pool, intern_operator};
use std::alloc::Global;

// The numbers of a theory's operators.
pub(crate) fn intern_operators(
    alloc: Global,
    pool: &mut Pool,
    operators: &[Operator],
) -> Result<Vec<u32>, Memory>
    ensures numbers { IfOk result (λ ns. map (slice_get pool.new.operators) ns.items ≡ map Some operators.now) }
    ensures grows { OnOk result (Grows pool.old pool.new) }
{
    let mut numbers = Vec::with_capacity(alloc, operators.len())?;
    for operator in operators {
        let number = intern_operator(alloc, pool, operator)?;
        numbers.push(number)?;
    }
    Ok(numbers)
}

// A theory's statements by numbers.
pub(crate) fn intern_statements(
    alloc: Global,
    pool: &mut Pool,
    statements: &[Statement],
) -> Result<Vec<Stated>, Memory>
    ensures within { IfOk result (λ ss. All (IsStated pool.new) ss.items) }
    ensures says { IfOk result (λ ss. map (stated_in pool.new) ss.items ≡ statements.now) }
    ensures grows { OnOk result (Grows pool.old pool.new) }
{
    let mut stated = Vec::with_capacity(alloc, statements.len())?;
    for statement in statements {
        let next = intern_statement(alloc, pool, statement)?;
        stated.push(next)?;
    }
    Ok(stated)
}
