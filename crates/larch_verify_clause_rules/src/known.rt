ghost use Rattle.std.specs.Prelude.{◌≡◌, All, IfOk, IfSome, OnOk};
ghost use Rattle.std.specs.Option.{option_map};
ghost use Rattle.larch_base.specs.ByNumber.{numbered};
ghost use Rattle.larch_verify_meaning.specs.ClauseRules.{own_operators};
ghost use Rattle.larch_verify_pool.specs.Pooled.{Grows};
ghost use Rattle.larch_verify_history.specs.Past.{IsPast};
ghost use Rattle.larch_verify_clause_rules.specs.Operators.{IsKnown, operators_in};

use larch_base::{Memory, Sequence, numbered};
use larch_term::{Operator, Operators};
use larch_verify_decoding::own_operator;
use larch_verify_history::Context;
use larch_verify_pool::{Pool, intern_operator};
use std::alloc::Global;

// An operator with its number in the pool.
#[derive(Drop)]
pub(crate) struct Known {
    pub(crate) operator: Operator,
    pub(crate) number: u32,
}

// The theory's operators with these numbers, counted from 1, if it has them all.
pub(crate) fn own_operators(
    alloc: Global,
    pool: &Pool,
    context: &Context<'_>,
    numbers: &[u64],
) -> Result<Option<Vec<Known>>, Memory>
    requires { IsPast context.now.theory.now pool.now context.now.past.now }
    ensures known { IfOk result (λ o. IfSome o (λ ks. All (IsKnown pool.now) ks.items)) }
    ensures says { IfOk result (λ o. option_map (λ ks. operators_in ks.items) o
        ≡ own_operators context.now.theory.now numbers.now) }
{
    let mut known = Vec::with_capacity(alloc, numbers.len())?;
    for number in numbers {
        let own = own(pool, context, *number)?;
        let Some(own) = own else {
            return Ok(None);
        };
        known.push(own)?;
    }
    Ok(Some(known))
}

// The theory's operator with a number.
fn own(pool: &Pool, context: &Context<'_>, number: u64) -> Result<Option<Known>, Memory>
    requires { IsPast context.now.theory.now pool.now context.now.past.now }
    ensures known { IfOk result (λ o. IfSome o (IsKnown pool.now)) }
    ensures says { IfOk result (λ o. option_map (λ k. k.operator) o
        ≡ numbered context.now.theory.now.operators number) }
{
    let Some(found) = own_operator(pool, context, number) else {
        return Ok(None);
    };
    let Some(operator) = numbered(context.theory.operators.as_slice(), number) else {
        return Ok(None);
    };
    let operator = operator.copy()?;
    Ok(Some(Known {
        operator,
        number: found,
    }))
}

// Operators with their numbers.
pub(crate) fn intern_operators(
    alloc: Global,
    pool: &mut Pool,
    operators: &[Operator],
) -> Result<Vec<Known>, Memory>
    ensures known { IfOk result (λ ks. All (IsKnown pool.new) ks.items) }
    ensures says { IfOk result (λ ks. operators_in ks.items ≡ operators.now) }
    ensures grows { OnOk result (Grows pool.old pool.new) }
{
    let mut known = Vec::with_capacity(alloc, operators.len())?;
    for operator in operators {
        let number = intern_operator(alloc, pool, operator)?;
        let operator = operator.copy()?;
        known.push(Known { operator, number })?;
    }
    Ok(known)
}

// The operators.
pub(crate) fn copy_known(alloc: Global, known: &[Known]) -> Result<Operators, Memory>
    ensures { IfOk result (λ fs. fs ≡ operators_in known.now) }
{
    let mut operators = Sequence::new(alloc);
    for one in known {
        let operator = one.operator.copy()?;
        operators.push(operator)?;
    }
    Ok(operators)
}
