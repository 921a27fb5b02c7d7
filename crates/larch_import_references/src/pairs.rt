ghost use Rattle.std.specs.Prelude.{◌≡◌, IfOk, map};
ghost use Rattle.larch_import_references.specs.Pairs.{operator_pair, pairs_by, sort_pair};

use larch_base::{Memory, Sequence};
use larch_flat_replacing::Replacements;
use larch_import_names::{OperatorPair, OperatorPairs, Renaming, SortPair, SortPairs};
use larch_sorts_known::existing_sorts;
use larch_term::{Operator, Sort};
use std::alloc::Global;

/// The new sort of each sort of a trait with these operators, Bool among them, and the new operator of each of its
/// operators, each once.
pub fn pairs_by(
    alloc: Global,
    by: &Replacements,
    operators: &[Operator],
) -> Result<Renaming, Memory>
    ensures { IfOk result (λ made. made ≡ pairs_by by.now operators.now) }
{
    let existing = existing_sorts(alloc, operators)?;
    let sorts = sort_pairs(alloc, by, existing.as_slice())?;
    let operators = operator_pairs(alloc, by, operators)?;
    Ok(Renaming { sorts, operators })
}

fn sort_pairs(alloc: Global, by: &Replacements, sorts: &[Sort]) -> Result<SortPairs, Memory>
    ensures { IfOk result (λ pairs. pairs ≡ map (sort_pair by.now) sorts.now) }
{
    let mut pairs = Sequence::new(alloc);
    for sort in sorts {
        let pair = sort_pair(by, sort)?;
        pairs.push(pair)?;
    }
    Ok(pairs)
}

fn sort_pair(by: &Replacements, sort: &Sort) -> Result<SortPair, Memory>
    ensures { IfOk result (λ pair. pair ≡ sort_pair by.now sort.now) }
{
    let new = by.sort(sort)?;
    let old = sort.copy()?;
    Ok(SortPair { old, new })
}

fn operator_pairs(
    alloc: Global,
    by: &Replacements,
    operators: &[Operator],
) -> Result<OperatorPairs, Memory>
    ensures { IfOk result (λ pairs. pairs ≡ map (operator_pair by.now) operators.now) }
{
    let mut pairs = Sequence::new(alloc);
    for operator in operators {
        let pair = operator_pair(alloc, by, operator)?;
        pairs.push(pair)?;
    }
    Ok(pairs)
}

fn operator_pair(
    alloc: Global,
    by: &Replacements,
    operator: &Operator,
) -> Result<OperatorPair, Memory>
    ensures { IfOk result (λ pair. pair ≡ operator_pair by.now operator.now) }
{
    let new = by.operator(alloc, operator)?;
    let old = operator.copy()?;
    Ok(OperatorPair { old, new })
}
