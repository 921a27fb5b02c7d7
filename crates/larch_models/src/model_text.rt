ghost use Rattle.std.specs.Prelude.{◌≡◌, ◌<◌, ◌≤◌, ◌+◌, ◌^◌, [], length, IfErr, IfNone, IfOk, IfSome, OnOk, Ok, Err};
ghost use Rattle.larch_certificate_text.specs.ListText.{split_at};
ghost use Rattle.larch_models_meaning.specs.ModelText.{read_model, read_sorts, read_tables};
ghost use Rattle.larch_models.specs.Reading.{BeginsWith, HasNoSort, IfForm};
ghost use Rattle.larch_models.specs.declared.model_text.ModelRefusal.TheVariants.{Memory as wants_memory};

use crate::parts::cut;
use crate::sort_line::read_sort;
use crate::table_line::read_table;
use larch_base::{Memory, Sequence, let_go};
use larch_models_meaning::{FiniteModel, OperatorTable, SortValues};
use larch_sorts_known::{SortSet, existing_sorts};
use larch_term::{Operator, Theory};
use std::alloc::Global;
use thiserror::Error;

/// Why a text is no model of a theory.
#[derive(Clone, Copy, Debug, PartialEq, Eq, Error)]
pub enum ModelRefusal {
    /// The number, from 1, of the first text line that is outside the grammar.
    #[error("text line {0} is outside the grammar")]
    Form(u64),
    /// Out of memory.
    #[error("out of memory")]
    Memory,
}

impl From<Memory> for ModelRefusal {
    ghost from_gives = { λ _ refusal. refusal ≡ wants_memory };

    fn from(_memory: Memory) -> ModelRefusal {
        ModelRefusal::Memory
    }
}

/// The model of a theory that a text is. A text that is none is refused at its first line outside the grammar, a
/// missing line being the one after the last; `Memory` comes only out of memory.
#[tactic(auto, using(crate::proofs::ModelLines::header_bad, crate::proofs::ModelLines::header_missing))]
pub fn read_model(alloc: Global, theory: &Theory, text: &[u8]) -> Result<FiniteModel, ModelRefusal>
    ensures read { IfOk result (λ model. read_model theory.now.operators text.now ≡ Ok model) }
    ensures refused { IfErr result (λ refusal. IfForm refusal (λ n. read_model theory.now.operators text.now ≡ Err n)) }
{
    let Some((first, rest)) = cut(b'\n', text) else {
        return Err(ModelRefusal::Form(1));
    };
    if first != b"model".as_slice() {
        return Err(ModelRefusal::Form(1));
    }
    read_lines(alloc, theory.operators.as_slice(), rest)
}

// The model that the lines behind the first say.
fn read_lines(
    alloc: Global,
    operators: &[Operator],
    text: &[u8],
) -> Result<FiniteModel, ModelRefusal>
    ensures read { IfOk result (λ model. read_sorts operators.now [] 2 (split_at 10 text.now) ≡ Ok model) }
    ensures refused { IfErr result (λ refusal. IfForm refusal (λ n.
        read_sorts operators.now [] 2 (split_at 10 text.now) ≡ Err n)) }
{
    let SortLines { sorts, next, rest } = read_sorts(alloc, operators, text)?;
    let mut tables = Sequence::new(alloc);
    match put_tables(alloc, sorts.as_slice(), operators, next, rest, &mut tables) {
        Ok(()) => Ok(FiniteModel { sorts, tables }),
        Err(refusal) => Err(let_go(refusal, (sorts, tables))),
    }
}

// What the lines of sorts say, the number of the next line, and the text from there on.
struct SortLines<'a> {
    sorts: Sequence<SortValues>,
    next: u64,
    rest: &'a [u8],
}

// Reads the lines of sorts.
fn read_sorts<'a>(
    alloc: Global,
    operators: &[Operator],
    text: &'a [u8],
) -> Result<SortLines<'a>, Memory>
    ensures same { IfOk result (λ lines. read_sorts operators.now [] 2 (split_at 10 text.now)
        ≡ read_tables lines.sorts [] 1 operators.now lines.next (split_at 10 lines.rest.now)) }
    ensures small { IfOk result (λ lines. lines.next + length lines.rest.now ≤ length text.now + 2) }
{
    let known = existing_sorts(alloc, operators)?;
    let mut sorts = Sequence::new(alloc);
    let mut next: u64 = 2;
    let mut rest = text;
    'lines: while let Some((values, others)) = first_sort(alloc, &known, sorts.as_slice(), rest)? {
        sorts.push(values)?;
        next += 1;
        rest = others;
    }
    Ok(SortLines { sorts, next, rest })
}

// The sort of the first line of a text, if it is one of a sort, and the text behind it.
fn first_sort<'a>(
    alloc: Global,
    known: &SortSet,
    sorts: &[SortValues],
    text: &'a [u8],
) -> Result<Option<(SortValues, &'a [u8])>, Memory>
    ensures some { IfOk result (λ found. IfSome found (λ p. BeginsWith known.now sorts.now text.now p.0 p.1.now)) }
    ensures none { IfOk result (λ found. IfNone found (HasNoSort known.now sorts.now text.now)) }
{
    let Some((line, rest)) = cut(b'\n', text) else {
        return Ok(None);
    };
    match read_sort(alloc, known, sorts, line)? {
        Some(values) => Ok(Some((values, rest))),
        None => Ok(None),
    }
}

// Puts the tables of operators, one line for each, behind those that are there. The first line has this number, and
// nothing stands behind the last.
fn put_tables(
    alloc: Global,
    sorts: &[SortValues],
    operators: &[Operator],
    first: u64,
    text: &[u8],
    tables: &mut Sequence<OperatorTable>,
) -> Result<(), ModelRefusal>
    requires { first + length text.now < 2 ^ 64 }
    ensures read { OnOk result (read_tables sorts.now tables.old 1 operators.now first (split_at 10 text.now)
        ≡ Ok (record { sorts = sorts.now; tables = tables.new })) }
    ensures refused { IfErr result (λ refusal. IfForm refusal (λ n.
        read_tables sorts.now tables.old 1 operators.now first (split_at 10 text.now) ≡ Err n)) }
{
    let mut number = first;
    let mut rest = text;
    for i in 0..operators.len() {
        let operator = &operators[i];
        let Some((line, others)) = cut(b'\n', rest) else {
            return Err(ModelRefusal::Form(number));
        };
        let Some(table) = read_table(alloc, sorts, i as u64 + 1, operator, line)? else {
            return Err(ModelRefusal::Form(number));
        };
        tables.push(table)?;
        number += 1;
        rest = others;
    }
    if rest.is_empty() {
        Ok(())
    } else {
        Err(ModelRefusal::Form(number))
    }
}
