ghost use Rattle.std.specs.Prelude.{◌≡◌, ◌==◌, ◌+◌, ◌∷◌, [], if◌then◌else◌, map, IfOk, OnOk};
ghost use Rattle.larch_models_meaning.specs.Computed.{holds_partitioned};
ghost use Rattle.larch_models_meaning.specs.FiniteModel.{interpretation_of};
ghost use Rattle.larch_models_meaning.specs.Models.{with_value};
ghost use Rattle.larch_models.specs.Every.{all_lists};
ghost use Rattle.larch_models.specs.Tables.{made_by};
ghost use Rattle.larch_models.specs.Clauses.{is_told_apart, plain_operation, shows_from, shows_same_among};
ghost use Rattle.larch_models.specs.Clauses.{shows_same_by};

use crate::lists::{Property, every_list};
use crate::operation::{Operation, operations_of};
use crate::sorts::last_value;
use larch_base::Memory;
use larch_models_meaning::FiniteModel;
use larch_term::{Operator, Sort};
use std::alloc::Global;

/// Whether the operators tell any two different values of the sort apart.
#[tactic(auto, using(crate::proofs::Partitions::partition_holds))]
pub(crate) fn holds_partitioned(
    alloc: Global,
    model: &FiniteModel,
    sort: &Sort,
    operators: &[Operator],
) -> Result<bool, Memory>
    ensures { IfOk result (λ answer. answer
        ≡ holds_partitioned (interpretation_of model.now) sort.now operators.now) }
{
    let operations = operations_of(alloc, model, sort, operators)?;
    let last = last_value(model.sorts.as_slice(), sort);
    tells_apart(alloc, operations.as_slice(), last)
}

// Whether the operators tell any two different values up to a last one apart.
fn tells_apart(alloc: Global, operations: &[Operation<'_>], last: u32) -> Result<bool, Memory>
    ensures { IfOk result (λ answer. answer
        ≡ all_lists (last ∷ last ∷ []) (is_told_apart (map plain_operation operations.now))) }
{
    let mut values = Vec::new(alloc);
    let mut scratch = Vec::new(alloc);
    let pairs = Pairs { alloc, operations };
    every_list(&pairs, &[last, last], &mut values, &mut scratch)
}

// That two values are equal or told apart.
#[derive(Drop)]
struct Pairs<'a, 'b> {
    alloc: Global,
    operations: &'b [Operation<'a>],
}

impl<'a, 'b> Property for Pairs<'a, 'b> {
    ghost so = { λ pairs vs. is_told_apart (map plain_operation pairs.operations.now) vs };

    #[tactic(auto, using(crate::proofs::Makers::first_is, crate::proofs::Makers::second_is))]
    fn check(&self, values: &[u32], _scratch: &mut Vec<u32>) -> Result<bool, Memory> {
        let first = values.get(0).copied().unwrap_or(0);
        let second = values.get(1).copied().unwrap_or(0);
        if first == second {
            return Ok(true);
        }
        let same = shows_same(self.alloc, self.operations, first, second)?;
        Ok(!same)
    }
}

// Whether all operators show the same of two values.
fn shows_same(
    alloc: Global,
    operations: &[Operation<'_>],
    first: u32,
    second: u32,
) -> Result<bool, Memory>
    ensures { IfOk result (λ answer. answer
        ≡ shows_same_among (map plain_operation operations.now) first second) }
{
    for operation in operations {
        if !shows_same_by(alloc, operation, first, second)? {
            return Ok(false);
        }
    }
    Ok(true)
}

// Whether an operator shows the same of two values, at each of its places.
fn shows_same_by(
    alloc: Global,
    operation: &Operation<'_>,
    first: u32,
    second: u32,
) -> Result<bool, Memory>
    ensures { IfOk result (λ answer. answer ≡ shows_same_by first second (plain_operation operation.now)) }
{
    let own = operation.own.as_slice();
    for i in 0..own.len() {
        if own[i] && !shows_same_at(alloc, operation, i + 1, first, second)? {
            return Ok(false);
        }
    }
    Ok(true)
}

// Whether an operator shows the same of two values at a place.
fn shows_same_at(
    alloc: Global,
    operation: &Operation<'_>,
    place: usize,
    first: u32,
    second: u32,
) -> Result<bool, Memory>
    ensures { IfOk result (λ answer. answer
        ≡ all_lists operation.now.lasts (λ vs. made_by operation.now.maker (with_value place first 1 vs)
        == made_by operation.now.maker (with_value place second 1 vs))) }
{
    let mut values = Vec::new(alloc);
    let mut scratch = Vec::new(alloc);
    let observation = Observation {
        operation,
        place,
        first,
        second,
    };
    every_list(
        &observation,
        operation.lasts.as_slice(),
        &mut values,
        &mut scratch,
    )
}

// That an operator makes the same with either value at a place.
#[derive(Drop)]
struct Observation<'a, 'b> {
    operation: &'b Operation<'a>,
    place: usize,
    first: u32,
    second: u32,
}

impl<'a, 'b> Property for Observation<'a, 'b> {
    ghost so = { λ w vs. made_by w.operation.now.maker (with_value w.place w.first 1 vs)
        == made_by w.operation.now.maker (with_value w.place w.second 1 vs) };

    fn check(&self, values: &[u32], scratch: &mut Vec<u32>) -> Result<bool, Memory> {
        put_with(values, self.place, self.first, scratch)?;
        let first = self.operation.maker.value(scratch.as_slice());
        put_with(values, self.place, self.second, scratch)?;
        let second = self.operation.maker.value(scratch.as_slice());
        Ok(first == second)
    }
}

// The values with this one at a place, counted from 1.
fn put_with(values: &[u32], place: usize, shown: u32, into: &mut Vec<u32>) -> Result<(), Memory>
    ensures { OnOk result (into.new.items ≡ with_value place shown 1 values.now) }
{
    into.clear();
    for i in 0..values.len() {
        into.push(value_at(place, i + 1, shown, values[i]))?;
    }
    Ok(())
}

// The value at a place where another one stands, if it is shown there.
fn value_at(place: usize, here: usize, shown: u32, value: u32) -> u32
    ensures { result ≡ (if here == place then shown else value) }
{
    if here == place { shown } else { value }
}
