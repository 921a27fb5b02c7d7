ghost use Rattle.std.specs.Prelude.{◌≡◌, ℕ, List, ◌++◌, ◌∷◌, [], IfOk, IfSome, OnOk, length, map};
ghost use Rattle.std.specs.Option.{option_copied};
ghost use Rattle.larch_sorts_counts.specs.SortsMeaningSignature.{kept, kept_under, taking_part, operators_named};
ghost use Rattle.larch_sorts_counts.specs.SortsKnownSorts.{exists_sort};
ghost use Rattle.larch_sorts_counts.specs.Numbers.{AreDifferent, AreNumbers, AreWords, as_numbers, numbers_under};
ghost use Rattle.larch_sorts_signature.specs.Makers.{maker_among, making};

use crate::overloads::Overloads;
use crate::place::Place;
use indexmap::IndexMap;
use larch_base::{Memory, Name, Sequence};
use larch_sorts_counts::from_sorts_known::{SortSet, existing_sorts, push_built_ins};
use larch_sorts_counts::from_sorts_meaning::Found;
use larch_sorts_counts::{Numbers, all_differ};
use larch_term::{Operator, Operators, Sort, copy_operators};
use std::alloc::Global;
use std::marker::Model;

// Beside so many sorts, and no more, the operators of names aren't kept as numbers.
const FEW: usize = 64;

/// Operators that terms are read over. Contracts see them as a list; the built-in operators take part by themselves.
pub struct Signature {
    operators: Operators,
    sorts: SortSet,
    index: IndexMap<Name, Overloads>,
    numbers: Option<Numbers>,
}

// By a call, so that a proof takes one apart in one place alone.
impl Drop for Signature {
    fn drop(self) {
        let Signature {
            operators: _operators,
            sorts: _sorts,
            index: _index,
            numbers: _numbers,
        } = self;
    }
}

impl Model for Signature {
    ghost use Rattle.std.specs.Prelude.{List, IfSome, ◌≡◌};
    ghost use Rattle.larch_term.specs.Operator.{PlainOperator};
    ghost use Rattle.larch_sorts_counts.specs.Numbers.{AreNumbers};
    ghost use Rattle.larch_sorts_counts.specs.SortsMeaningSignature.{IsIndex, taking_part};
    ghost use Rattle.larch_sorts_counts.specs.SortsKnownSorts.{existing_sorts};

    ghost Value = { List PlainOperator };

    ghost view = { λ signature. signature.operators };

    ghost invariant = { λ signature. (signature.sorts ≡ existing_sorts signature.operators)
        × IsIndex signature.index.entries (taking_part signature.operators)
        × IfSome signature.numbers (λ numbers. AreNumbers numbers (taking_part signature.operators)) };
}

impl Signature {
    /// The signature of these operators, which it keeps. Any list does, also one with an operator twice.
    pub fn from_operators(alloc: Global, operators: Operators) -> Result<Signature, Memory>
        ensures { IfOk result (λ signature. signature ≡ operators) }
    {
        let sorts = existing_sorts(alloc, operators.as_slice())?;
        let mut all = copy_operators(alloc, operators.as_slice())?;
        push_built_ins(alloc, &mut all, sorts.as_slice())?;
        let named = by_name(alloc, all.as_slice())?;
        let index = overloads_of(alloc, &named)?;
        let numbers = numbers_of(alloc, sorts.as_slice(), all.as_slice(), &named)?;
        Ok(Signature {
            operators,
            sorts,
            index,
            numbers,
        })
    }

    /// Its operators, without the built-in ones. It takes no memory.
    pub fn operators(&self) -> &[Operator]
        ensures { result.now ≡ self.now }
    {
        self.operators.as_slice()
    }

    /// Its operators, when it is no longer needed. It takes no memory.
    pub fn into_operators(self) -> Operators
        ensures { result ≡ self }
    {
        let Signature {
            operators,
            sorts: _sorts,
            index: _index,
            numbers: _numbers,
        } = self;
        operators
    }

    /// Whether a sort exists: Bool, or one in the domain or range of an operator. It takes no memory.
    pub fn knows(&self, sort: &Sort) -> bool
        ensures { result ≡ exists_sort self.now sort.now }
    {
        self.sorts.contains(sort)
    }

    /// The operators of a name that take part. It takes no memory.
    pub fn named(&self, name: &Name) -> Option<&Overloads>
        ensures { kept (option_copied result) ≡ operators_named name.now (taking_part self.now) }
    {
        self.index.get(name)
    }

    /// The operators that take part as numbers, where there are many sorts. It takes no memory.
    pub fn numbers(&self) -> Option<&Numbers>
        ensures { IfSome result (λ numbers. AreNumbers numbers.now (taking_part self.now)) }
    {
        match &self.numbers {
            Some(numbers) => Some(numbers),
            None => None,
        }
    }
}

/// The operator of a name that makes a sort of so many arguments, or that there are several.
pub fn maker_of(
    signature: &Signature,
    name: &Name,
    arity: usize,
    sort: &Sort,
) -> Result<Option<Found<Operator>>, Memory>
    ensures { IfOk result (λ found. found
        ≡ maker_among (making arity sort.now) (operators_named name.now (taking_part signature.now))) }
{
    let Some(overloads) = signature.named(name) else {
        return Ok(None);
    };
    let sort = sort.copy()?;
    let place = Place {
        arity,
        position: 0,
        sort,
    };
    let found = overloads.maker(&place)?;
    Ok(found)
}

// The operators of each name as numbers, where there are many sorts and no operator comes twice.
fn numbers_of(
    alloc: Global,
    sorts: &[Sort],
    operators: &[Operator],
    named: &IndexMap<Name, Operators>,
) -> Result<Option<Numbers>, Memory>
    ensures { IfOk result (λ found. IfSome found (λ numbers. ((n : List ℕ)
        → numbers_under numbers.names.entries n ≡ map (as_numbers numbers.sorts.keys) (kept_under named.now.entries n))
        × (AreDifferent operators.now
        × AreWords (length numbers.sorts.keys) numbers.names.entries numbers.words.entries))) }
{
    if sorts.len() <= FEW || !all_differ(alloc, operators)? {
        return Ok(None);
    }
    let numbers = Numbers::of(alloc, sorts, named)?;
    Ok(Some(numbers))
}

// The operators of each name, ready to be read.
fn overloads_of(
    alloc: Global,
    named: &IndexMap<Name, Operators>,
) -> Result<IndexMap<Name, Overloads>, Memory>
    ensures { IfOk result (λ index. (n : List ℕ) → kept_under index.entries n ≡ kept_under named.now.entries n) }
{
    let mut index = IndexMap::new(alloc);
    for name in named.keys() {
        let operators = kept_operators(alloc, named, name)?;
        let overloads = Overloads::of(alloc, operators)?;
        let name = name.copy()?;
        index.insert(name, overloads)?;
    }
    Ok(index)
}

// The operators of one name.
fn kept_operators(
    alloc: Global,
    named: &IndexMap<Name, Operators>,
    name: &Name,
) -> Result<Operators, Memory>
    ensures { IfOk result (λ operators. operators ≡ kept_under named.now.entries name.now) }
{
    match named.get(name) {
        Some(operators) => {
            let operators = copy_operators(alloc, operators.as_slice())?;
            Ok(operators)
        }
        None => Ok(Sequence::new(alloc)),
    }
}

// Each operator under its name.
fn by_name(alloc: Global, operators: &[Operator]) -> Result<IndexMap<Name, Operators>, Memory>
    ensures { IfOk result (λ index. (n : List ℕ) → kept_under index.entries n ≡ operators_named n operators.now) }
{
    let mut index = IndexMap::new(alloc);
    for operator in operators {
        keep(alloc, &mut index, operator)?;
    }
    Ok(index)
}

// Puts an operator behind those of its name.
fn keep(
    alloc: Global,
    index: &mut IndexMap<Name, Operators>,
    operator: &Operator,
) -> Result<(), Memory>
    ensures { OnOk result ((n : List ℕ)
        → kept_under index.new.entries n ≡ kept_under index.old.entries n ++ operators_named n (operator.now ∷ [])) }
{
    let mut operators = match index.swap_remove(operator.name()) {
        Some(operators) => operators,
        None => Sequence::new(alloc),
    };
    let copied = operator.copy()?;
    operators.push(copied)?;
    let name = operator.name().copy()?;
    index.insert(name, operators)?;
    Ok(())
}
