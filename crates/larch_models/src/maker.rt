ghost use Rattle.std.specs.Prelude.{◌≡◌, ◌≤◌, ◌+◌, ◌*◌, ◌^◌, suc, get_or, IfOk, IfSome, IfNone};
ghost use Rattle.larch_models_meaning.specs.FiniteModel.{interpretation_of};
ghost use Rattle.larch_models_meaning.specs.Interpretation.{bit, meaning};
ghost use Rattle.larch_models.specs.Tables.{made_by, made_by_table, place_by, values_for};

use crate::sorts::{last_value, last_values};
use larch_base::{Memory, Sequence};
use larch_models_meaning::{FiniteModel, OperatorTable};
use larch_term::{BuiltIn, Operator, built_in_of, same_operator};
use std::alloc::Global;

/// What an operator makes of arguments.
#[derive(Drop)]
pub(crate) enum Maker<'a> {
    /// What a built-in operator means.
    Meaning(BuiltIn),
    /// What a table has.
    Table(Table<'a>),
}

/// A table: the last value of each argument, the last value of its range, and the values.
#[derive(Drop)]
pub(crate) struct Table<'a> {
    lasts: Sequence<u32>,
    last: u32,
    values: &'a [u32],
}

/// What an operator makes of arguments in a model: without a table, 0.
#[tactic(auto, using(crate::proofs::Makers::built_in_made, crate::proofs::Makers::table_made))]
pub(crate) fn maker_of<'a>(
    alloc: Global,
    model: &'a FiniteModel,
    operator: &Operator,
) -> Result<Maker<'a>, Memory>
    ensures { IfOk result (λ maker. made_by maker ≡ (interpretation_of model.now).table operator.now) }
{
    match built_in_of(operator) {
        Some(built_in) => Ok(Maker::Meaning(built_in)),
        None => table_of(alloc, model, operator),
    }
}

// The table of an operator.
fn table_of<'a>(
    alloc: Global,
    model: &'a FiniteModel,
    operator: &Operator,
) -> Result<Maker<'a>, Memory>
    ensures { IfOk result (λ maker. made_by maker ≡ made_by_table model.now operator.now) }
{
    let sorts = model.sorts.as_slice();
    let last = last_value(sorts, operator.range());
    let values = values_for(model.tables.as_slice(), operator);
    let lasts = last_values(alloc, sorts, operator.domain())?;
    Ok(Maker::Table(Table {
        lasts,
        last,
        values,
    }))
}

// The values in the first table of an operator.
#[tactic(auto, using(crate::proofs::Makers::values_here, crate::proofs::Makers::values_further))]
fn values_for<'a>(tables: &'a [OperatorTable], operator: &Operator) -> &'a [u32]
    ensures { result.now ≡ values_for tables.now operator.now }
{
    for table in tables {
        if same_operator(&table.operator, operator) {
            return table.values.as_slice();
        }
    }
    &[]
}

impl<'a> Maker<'a> {
    /// What it makes of arguments. It takes no memory.
    pub(crate) fn value(&self, arguments: &[u32]) -> u32
        ensures { result ≡ made_by self.now arguments.now }
    {
        match self {
            Maker::Meaning(built_in) => meaning(*built_in, arguments),
            Maker::Table(table) => entry(table, arguments),
        }
    }
}

// What a table has for arguments.
#[tactic(auto, using(crate::proofs::Makers::nothing_beyond))]
fn entry(table: &Table<'_>, arguments: &[u32]) -> u32
    ensures { result ≡ made_by (Maker.Table table.now) arguments.now }
{
    match place(table.lasts.as_slice(), arguments) {
        Some(place) => at(table.values, place as usize).min(table.last),
        None => 0,
    }
}

// The place of arguments among all, the last one running fastest, where a number can name it.
fn place(lasts: &[u32], arguments: &[u32]) -> Option<u64>
    ensures some { IfSome result (λ place. place ≡ place_by lasts.now 0 arguments.now) }
    ensures none { IfNone result (2 ^ 64 ≤ place_by lasts.now 0 arguments.now) }
{
    let mut place: u64 = 0;
    for i in 0..lasts.len().min(arguments.len()) {
        place = place_behind(place, lasts[i], arguments[i])?;
    }
    Some(place)
}

// The place of one argument more.
fn place_behind(place: u64, last: u32, argument: u32) -> Option<u64>
    ensures some { IfSome result (λ behind. behind ≡ place * suc last + argument) }
    ensures none { IfNone result (2 ^ 64 ≤ place * suc last + argument) }
{
    let before = place.checked_mul(u64::from(last) + 1)?;
    before.checked_add(u64::from(argument))
}

// The value at a place, counted from 0, or 0.
fn at(values: &[u32], place: usize) -> u32
    ensures { result ≡ get_or values.now place 0 }
{
    values.get(place).copied().unwrap_or(0)
}

// What a built-in operator means.
#[tactic(auto, using(crate::proofs::Makers::first_is, crate::proofs::Makers::second_is, crate::proofs::Makers::third_is))]
fn meaning(built_in: BuiltIn, arguments: &[u32]) -> u32
    ensures { result ≡ meaning built_in arguments.now }
{
    let first = at(arguments, 0);
    let second = at(arguments, 1);
    match built_in {
        BuiltIn::True => 1,
        BuiltIn::False => 0,
        BuiltIn::Not => bit(first != 1),
        BuiltIn::And => bit(first == 1 && second == 1),
        BuiltIn::Or => bit(first == 1 || second == 1),
        BuiltIn::Implies => bit(first != 1 || second == 1),
        BuiltIn::Iff | BuiltIn::Equal => bit(first == second),
        BuiltIn::Unequal => bit(first != second),
        BuiltIn::If => { if first == 1 { second } else { at(arguments, 2) } }
    }
}

// A truth value as a number.
fn bit(holds: bool) -> u32
    ensures { result ≡ bit holds }
{
    if holds { 1 } else { 0 }
}
