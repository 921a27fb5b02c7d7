ghost use Rattle.std.specs.Prelude.{◌≡◌, map, IfOk, position};
ghost use Rattle.larch_term.specs.Equality.{same_operator};
ghost use Rattle.larch_import_names.specs.Names.{renaming};
ghost use Rattle.larch_import_meaning.specs.Imported.{new_numbers, number_among};

use larch_base::{Memory, Sequence};
use larch_certificate::Numbers;
use larch_import_names::{Renaming, rename_operator};
use larch_term::{Operator, Theory};
use std::alloc::Global;

/// The numbers among a theory's operators of those of another theory, by their new names.
pub fn new_numbers(
    alloc: Global,
    by: &Renaming,
    source: &Theory,
    target: &Theory,
) -> Result<Numbers, Memory>
    ensures { IfOk result (λ numbers. numbers ≡ new_numbers by.now source.now target.now) }
{
    let numbers = numbers_of(
        alloc,
        by,
        source.operators.as_slice(),
        target.operators.as_slice(),
    )?;
    Ok(numbers)
}

fn numbers_of(
    alloc: Global,
    by: &Renaming,
    operators: &[Operator],
    others: &[Operator],
) -> Result<Numbers, Memory>
    ensures { IfOk result (λ numbers. numbers
        ≡ map (λ f. number_among others.now ((renaming by.now).operator f)) operators.now) }
{
    let mut numbers = Sequence::new(alloc);
    for operator in operators {
        let number = new_number(alloc, by, operator, others)?;
        numbers.push(number)?;
    }
    Ok(numbers)
}

// The number of an operator among others, by its new name.
fn new_number(
    alloc: Global,
    by: &Renaming,
    operator: &Operator,
    others: &[Operator],
) -> Result<u64, Memory>
    ensures { IfOk result (λ number. number ≡ number_among others.now ((renaming by.now).operator operator.now)) }
{
    let new = rename_operator(alloc, by, operator)?;
    let number = number_among(others, &new);
    Ok(number)
}

// The number of an operator among others.
fn number_among(operators: &[Operator], operator: &Operator) -> u64
    ensures { result ≡ number_among operators.now operator.now }
{
    match place_among(operators, operator) {
        Some(place) => place as u64 + 1,
        None => 0,
    }
}

fn place_among(operators: &[Operator], operator: &Operator) -> Option<usize>
    ensures { result ≡ position (λ g. same_operator g operator.now) operators.now }
{
    operators.iter().position(|other| *other == *operator)
}
