ghost use Rattle.std.specs.Prelude.{◌≡◌, ◌==◌, ◌∷◌, ℕ, List, None, Some, codes, decimal, if◌then◌else◌};
ghost use Rattle.std.specs.Prelude.{length, option_and_then, IfNone, IfOk, IfSome};
ghost use Rattle.larch_certificate_text.specs.ListText.{read_each};
ghost use Rattle.larch_certificate_text.specs.Parts.{read_number};
ghost use Rattle.larch_term.specs.Operator.{PlainOperator};
ghost use Rattle.larch_models_meaning.specs.FiniteModel.{argument_lists, last_among};
ghost use Rattle.larch_models_meaning.specs.ModelText.{table_of_words, with_values, words_of};
ghost use Rattle.larch_models_meaning.specs.Standard.{standard_last};
ghost use Rattle.larch_models.specs.Reading.{value_up_to};

use crate::parts::{cut, is_number, read_number};
use crate::sorts::last_value;
use larch_base::{Memory, Sequence};
use larch_models_meaning::{OperatorTable, SortValues};
use larch_term::{Operator, Sort};
use std::alloc::Global;

/// The table of the operator with this number that a line says.
pub(crate) fn read_table(
    alloc: Global,
    sorts: &[SortValues],
    number: u64,
    operator: &Operator,
    line: &[u8],
) -> Result<Option<OperatorTable>, Memory>
    ensures { IfOk result (λ found. found
        ≡ table_of_words (standard_last (last_among sorts.now)) number operator.now (words_of line.now)) }
{
    match values_text(line, number) {
        Some(text) => table_with(alloc, sorts, operator, text),
        None => Ok(None),
    }
}

// The text of the values behind `op` and the number.
#[tactic(auto, using(crate::proofs::TableWords::one_word, crate::proofs::TableWords::two_words, crate::proofs::TableWords::more_words, crate::proofs::TableWords::another_word))]
fn values_text(line: &[u8], number: u64) -> Option<&[u8]>
    ensures some { IfSome result (λ text. words_of line.now ≡ codes "op" ∷ decimal number ∷ words_of text.now) }
    ensures none { IfNone result ((last : List ℕ → ℕ) (f : PlainOperator)
        → table_of_words last number f (words_of line.now) ≡ None) }
{
    let (word, rest) = cut(b' ', line)?;
    let (place, values) = cut(b' ', rest)?;
    if word == b"op".as_slice() && is_number(place, number) {
        Some(values)
    } else {
        None
    }
}

// The table of an operator with the values that a text says.
fn table_with(
    alloc: Global,
    sorts: &[SortValues],
    operator: &Operator,
    text: &[u8],
) -> Result<Option<OperatorTable>, Memory>
    ensures { IfOk result (λ found. found
        ≡ option_and_then (with_values (standard_last (last_among sorts.now)) operator.now)
        (read_each read_number (words_of text.now))) }
{
    let operator = operator.copy()?;
    let last = last_value(sorts, operator.range());
    match read_values(alloc, last, text)? {
        Some(values) => Ok(table_of(sorts, operator, values)),
        None => Ok(None),
    }
}

// The table of an operator with values of its range, if they are as many as its lists of arguments.
fn table_of(
    sorts: &[SortValues],
    operator: Operator,
    values: Sequence<u32>,
) -> Option<OperatorTable>
    ensures { result ≡ (if length values == argument_lists (standard_last (last_among sorts.now)) operator.domain
        then Some (record { operator = operator; values = values }) else None) }
{
    if are_all(sorts, operator.domain(), values.as_slice().len()) {
        Some(OperatorTable { operator, values })
    } else {
        None
    }
}

// Whether there are so many lists of arguments. The product ends where no number is so large.
#[tactic(auto, using(crate::proofs::Counts::lists_further, crate::proofs::Counts::lists_beyond))]
fn are_all(sorts: &[SortValues], domain: &[Sort], count: usize) -> bool
    ensures { result ≡ (count == argument_lists (standard_last (last_among sorts.now)) domain.now) }
{
    let mut product: u64 = 1;
    for sort in domain {
        let values = u64::from(last_value(sorts, sort)) + 1;
        let Some(more) = product.checked_mul(values) else {
            return false;
        };
        product = more;
    }
    count as u64 == product
}

// The values, each at most a last one, with one blank between them.
fn read_values(alloc: Global, last: u32, text: &[u8]) -> Result<Option<Sequence<u32>>, Memory>
    ensures { IfOk result (λ values. values ≡ read_each (value_up_to last) (words_of text.now)) }
{
    let mut values = Sequence::new(alloc);
    let mut rest = text;
    'words: while let Some((word, others)) = cut(b' ', rest) {
        let Some(value) = value_up_to(last, word) else {
            return Ok(None);
        };
        values.push(value)?;
        rest = others;
    }
    let Some(value) = value_up_to(last, rest) else {
        return Ok(None);
    };
    values.push(value)?;
    Ok(Some(values))
}

// The number that a word is, if it is at most so large.
fn value_up_to(last: u32, word: &[u8]) -> Option<u32>
    ensures { result ≡ value_up_to last word.now }
{
    let value = read_number(word)?;
    if value <= u64::from(last) {
        Some(value as u32)
    } else {
        None
    }
}
