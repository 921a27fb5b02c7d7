ghost use Rattle.std.specs.Prelude.{◌≡◌, ◌==◌, ◌&&◌, ◌||◌, ◌<◌, not, suc, ℕ, false, get_or, length, map, IfOk};
ghost use Rattle.std.specs.List.{list_all};
ghost use Rattle.larch_models_meaning.specs.Computed.{holds_generated};
ghost use Rattle.larch_models_meaning.specs.FiniteModel.{interpretation_of};
ghost use Rattle.larch_models.specs.Every.{all_lists};
ghost use Rattle.larch_models.specs.Tables.{made_by};
ghost use Rattle.larch_models.specs.Clauses.{IsNextMade, arguments_among, is_made_next, is_unmade_among};
ghost use Rattle.larch_models.specs.Clauses.{is_unmade_by, plain_operation};

use crate::lists::{Property, every_list};
use crate::operation::{Operation, operations_of};
use crate::sorts::last_value;
use larch_base::Memory;
use larch_models_meaning::FiniteModel;
use larch_term::{Operator, Sort};
use std::alloc::Global;

/// Whether each value of the sort is made by the operators: nothing is made at first, and each step makes what the
/// operators make of what is made.
#[tactic(auto, using(crate::proofs::Generations::all_made))]
pub(crate) fn holds_generated(
    alloc: Global,
    model: &FiniteModel,
    sort: &Sort,
    operators: &[Operator],
) -> Result<bool, Memory>
    ensures { IfOk result (λ answer. answer
        ≡ holds_generated (interpretation_of model.now) sort.now operators.now) }
{
    let operations = operations_of(alloc, model, sort, operators)?;
    let last = last_value(model.sorts.as_slice(), sort);
    let mut made = nothing_made(alloc, last)?;
    for step in 0..made.len() {
        made = next_made(alloc, operations.as_slice(), made.as_slice())?;
    }
    Ok(are_all_made(made.as_slice()))
}

// Whether all values are made.
fn are_all_made(made: &[bool]) -> bool
    ensures { result ≡ list_all (λ one. one) made.now }
{
    made.iter().all(|one| *one)
}

// No value up to a last one is made.
fn nothing_made(alloc: Global, last: u32) -> Result<Vec<bool>, Memory>
    ensures many { IfOk result (λ made. length made.items ≡ suc last) }
    ensures none { IfOk result (λ made. (v : ℕ) → get_or made.items v false ≡ false) }
{
    let mut made = Vec::new(alloc);
    made.push(false)?;
    for _count in 0..last {
        made.push(false)?;
    }
    Ok(made)
}

// Which values are made by one step more.
fn next_made(
    alloc: Global,
    operations: &[Operation<'_>],
    made: &[bool],
) -> Result<Vec<bool>, Memory>
    ensures { IfOk result (λ next. IsNextMade (map plain_operation operations.now) made.now next.items) }
{
    let mut next = Vec::new(alloc);
    for value in 0..made.len() {
        let is_made = made[value] || is_made(alloc, operations, made, value)?;
        next.push(is_made)?;
    }
    Ok(next)
}

// Whether an operator makes a value of values that are made.
fn is_made(
    alloc: Global,
    operations: &[Operation<'_>],
    made: &[bool],
    value: usize,
) -> Result<bool, Memory>
    ensures { IfOk result (λ answer. answer
        ≡ not (is_unmade_among (map plain_operation operations.now) made.now value)) }
{
    for operation in operations {
        if !is_unmade(alloc, operation, made, value)? {
            return Ok(true);
        }
    }
    Ok(false)
}

// Whether an operator makes a value of no values that are made.
fn is_unmade(
    alloc: Global,
    operation: &Operation<'_>,
    made: &[bool],
    value: usize,
) -> Result<bool, Memory>
    ensures { IfOk result (λ answer. answer ≡ is_unmade_by made.now value (plain_operation operation.now)) }
{
    let mut values = Vec::new(alloc);
    let mut scratch = Vec::new(alloc);
    let unmade = Unmade {
        operation,
        made,
        value,
    };
    every_list(
        &unmade,
        operation.lasts.as_slice(),
        &mut values,
        &mut scratch,
    )
}

// That a value isn't made of arguments, or not all of them are made.
#[derive(Drop)]
struct Unmade<'a, 'b> {
    operation: &'b Operation<'a>,
    made: &'b [bool],
    value: usize,
}

impl<'a, 'b> Property for Unmade<'a, 'b> {
    ghost so = { λ unmade vs. not (arguments_among unmade.operation.now.own unmade.made.now vs
        && made_by unmade.operation.now.maker vs == unmade.value) };

    fn check(&self, values: &[u32], _scratch: &mut Vec<u32>) -> Result<bool, Memory> {
        let makes = are_made(self.operation.own.as_slice(), self.made, values)
            && self.operation.maker.value(values) as usize == self.value;
        Ok(!makes)
    }
}

// Whether each argument of the sort is made.
fn are_made(own: &[bool], made: &[bool], values: &[u32]) -> bool
    ensures { result ≡ arguments_among own.now made.now values.now }
{
    for i in 0..own.len().min(values.len()) {
        if !may_stand(own[i], made, values[i]) {
            return false;
        }
    }
    true
}

// Whether an argument is made, if it is of the sort.
fn may_stand(own: bool, made: &[bool], value: u32) -> bool
    ensures { result ≡ (not own || get_or made.now value false) }
{
    !own || made.get(value as usize).copied().unwrap_or(false)
}
