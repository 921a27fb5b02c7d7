ghost use Rattle.std.specs.Prelude.{◌≡◌, map, Some, All, Contains, IfOk, IfSome, IfNone};
ghost use Rattle.larch_base.specs.ByNumber.{numbered};

use larch_base::{Memory, Sequence};
use larch_certificate::Numbers;
use larch_term::Operator;
use std::alloc::Global;

// The numbers of operators among those of a theory, counted from 1. None where one of them isn't among those.
pub(crate) fn numbers_of(
    alloc: Global,
    own: &[Operator],
    operators: &[Operator],
) -> Result<Option<Numbers>, Memory>
    ensures some { IfOk result (λ found. IfSome found (λ ks. map (numbered own.now) ks ≡ map Some operators.now)) }
    ensures none { IfOk result (λ found. IfNone found (All (Contains own.now) operators.now → ⊥)) }
{
    let mut numbers = Sequence::new(alloc);
    for operator in operators {
        let found = number_of(own, operator);
        let Some(number) = found else {
            return Ok(None);
        };
        numbers.push(number)?;
    }
    Ok(Some(numbers))
}

// The number of an operator. None where it isn't among the theory's.
fn number_of(own: &[Operator], operator: &Operator) -> Option<u64>
    ensures some { IfSome result (λ k. numbered own.now k ≡ Some operator.now) }
    ensures none { IfNone result (Contains own.now operator.now → ⊥) }
{
    let mut number = 1;
    for candidate in own {
        if *candidate == *operator {
            return Some(number);
        }
        number += 1;
    }
    None
}
