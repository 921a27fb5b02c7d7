ghost use Rattle.std.specs.Prelude.{◌≡◌, find, map, bytes_eq, IfOk, option_map};
ghost use Rattle.larch_term.specs.Equality.{same_operator};
ghost use Rattle.larch_term.specs.Operator.{plain};
ghost use Rattle.larch_import_names.specs.Names.{named_sort, new_name, operator_by, paired_sort, sort_or, with_letters};

use crate::pairs::{OperatorPair, Renaming, SortPair};
use larch_base::{Memory, Name, Sequence};
use larch_term::{Operator, Operators, Sort, Sorts, is_built_in};
use std::alloc::Global;

impl Renaming {
    /// The new sort of a sort that is named. It takes no memory.
    pub fn new_sort<'a>(&'a self, sort: &'a Sort) -> Option<&'a Sort>
        ensures { option_map (λ s. s.now) result ≡ named_sort self.now sort.now }
    {
        if sort.bytes().is_empty() {
            return Some(sort);
        }
        sort_by_pairs(self.sorts.as_slice(), sort)
    }
}

// The new sort of a sort by the first pair for it, where that one has letters.
fn sort_by_pairs<'a>(pairs: &'a [SortPair], sort: &Sort) -> Option<&'a Sort>
    ensures { option_map (λ s. s.now) result ≡ paired_sort pairs.now sort.now }
{
    let pair = sort_pair(pairs, sort)?;
    with_letters(&pair.new)
}

fn with_letters(sort: &Sort) -> Option<&Sort>
    ensures { option_map (λ s. s.now) result ≡ with_letters sort.now }
{
    match sort.bytes() {
        [] => None,
        [_, ..] => Some(sort),
    }
}

// The first pair for a sort.
fn sort_pair<'a>(pairs: &'a [SortPair], sort: &Sort) -> Option<&'a SortPair>
    ensures { option_map (λ p. p.now) result ≡ find (λ p. bytes_eq p.old sort.now) pairs.now }
{
    pairs.iter().find(|pair| pair.old == *sort)
}

// The first pair for an operator.
fn operator_pair<'a>(pairs: &'a [OperatorPair], operator: &Operator) -> Option<&'a OperatorPair>
    ensures { option_map (λ p. p.now) result ≡ find (λ p. same_operator p.old operator.now) pairs.now }
{
    pairs.iter().find(|pair| pair.old == *operator)
}

/// The new sort of a sort; one that isn't named stays.
pub fn rename_sort(by: &Renaming, sort: &Sort) -> Result<Sort, Memory>
    ensures { IfOk result (λ new. new ≡ sort_or (λ s. s) by.now sort.now) }
{
    match by.new_sort(sort) {
        Some(new) => new.copy(),
        None => sort.copy(),
    }
}

// The new sorts of sorts.
fn rename_sorts(alloc: Global, by: &Renaming, sorts: &[Sort]) -> Result<Sorts, Memory>
    ensures { IfOk result (λ new. new ≡ map (sort_or (λ s. s) by.now) sorts.now) }
{
    let mut new = Sequence::new(alloc);
    for sort in sorts {
        let other = rename_sort(by, sort)?;
        new.push(other)?;
    }
    Ok(new)
}

// The new name of an operator. One that isn't named keeps its name, and so does one that is built in.
#[tactic(auto, using(crate::proofs::Naming::own_stays, crate::proofs::Naming::none_given, crate::proofs::Naming::some_given))]
fn rename_name(by: &Renaming, operator: &Operator) -> Result<Name, Memory>
    ensures { IfOk result (λ name. plain name ≡ new_name by.now operator.now) }
{
    let own = operator.name();
    if is_built_in(operator) {
        let name = own.copy()?;
        return Ok(name);
    }
    match operator_pair(by.operators.as_slice(), operator) {
        Some(pair) => {
            let name = pair.new.name().copy()?;
            Ok(name)
        }
        None => {
            let name = own.copy()?;
            Ok(name)
        }
    }
}

/// The operator with its new name, at the new sorts.
#[tactic(auto, unfolding(crate::specs::Names::operator_by))]
pub fn rename_operator(
    alloc: Global,
    by: &Renaming,
    operator: &Operator,
) -> Result<Operator, Memory>
    ensures { IfOk result (λ new. new ≡ operator_by (sort_or (λ s. s) by.now) by.now operator.now) }
{
    let name = rename_name(by, operator)?;
    let domain = rename_sorts(alloc, by, operator.domain())?;
    let range = rename_sort(by, operator.range())?;
    let new = Operator::new(alloc, name, domain, range)?;
    Ok(new)
}

/// The operators with their new names, at the new sorts.
pub fn rename_operators(
    alloc: Global,
    by: &Renaming,
    operators: &[Operator],
) -> Result<Operators, Memory>
    ensures { IfOk result (λ new. new ≡ map (operator_by (sort_or (λ s. s) by.now) by.now) operators.now) }
{
    let mut new = Sequence::new(alloc);
    for operator in operators {
        let other = rename_operator(alloc, by, operator)?;
        new.push(other)?;
    }
    Ok(new)
}
