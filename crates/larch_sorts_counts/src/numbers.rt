ghost use Rattle.std.specs.Map.{lookup};
ghost use Rattle.std.specs.Option.{option_copied};
ghost use Rattle.std.specs.Prelude.{◌≡◌, ℕ, List, IfOk, IsTrue, bytes_eq, length, map, slice_get};
ghost use Rattle.larch_sorts_counts.specs.Numbers.{AreDifferent, AreWords, number_of, as_numbers, numbers_under};
ghost use Rattle.larch_sorts_meaning.specs.Signature.{kept_under};

use crate::number_list::NumberList;
use crate::tally::SortCounts;
use crate::words::words_of;
use indexmap::{IndexMap, IndexSet};
use larch_sorts_meaning::from_base::{Memory, Name, Sequence};
use larch_sorts_meaning::from_term::{Operator, Operators, Sort};
use std::alloc::Global;

// Names of at most so many operators come before those of more.
const LIMITS: [usize; 4] = [64, 1_024, 16_384, 1_000_000_000];

/// An operator as the numbers of its sorts.
#[derive(Drop)]
pub struct Numbered {
    /// The numbers of the sorts of its arguments.
    pub domain: NumberList,
    /// The number of the sort that it makes.
    pub range: u32,
}

/// Sorts by number, the operators of each name as the numbers of their sorts, and counts of names without arguments.
pub struct Numbers {
    sorts: IndexSet<Sort>,
    names: IndexMap<Name, Sequence<Numbered>>,
    words: IndexMap<Name, SortCounts>,
}

// By a call, so that a proof takes one apart in one place alone.
impl Drop for Numbers {
    fn drop(self) {
        let Numbers {
            sorts: _sorts,
            names: _names,
            words: _words,
        } = self;
    }
}

impl Numbers {
    /// These sorts by number, and the operators of each name in an index.
    pub fn of(
        alloc: Global,
        sorts: &[Sort],
        index: &IndexMap<Name, Operators>,
    ) -> Result<Numbers, Memory>
        ensures names { IfOk result (λ numbers. (n : List ℕ)
            → numbers_under numbers.names.entries n
            ≡ map (as_numbers numbers.sorts.keys) (kept_under index.now.entries n)) }
        ensures words { IfOk result (λ numbers.
            AreWords (length numbers.sorts.keys) numbers.names.entries numbers.words.entries) }
    {
        let sorts = set_of(alloc, sorts, index)?;
        let names = names_of(alloc, &sorts, index)?;
        let words = words_of(alloc, sorts.len(), &names)?;
        Ok(Numbers {
            sorts,
            names,
            words,
        })
    }

    /// The operators of a name. It takes no memory.
    pub fn named(&self, name: &Name) -> &[Numbered]
        ensures { result.now ≡ numbers_under self.now.names.entries name.now }
    {
        match self.names.get(name) {
            Some(operators) => operators.as_slice(),
            None => &[],
        }
    }

    // The counts of what a name makes of no arguments, where they are kept.
    pub(crate) fn word(&self, name: &Name) -> Option<&SortCounts>
        ensures { option_copied result ≡ lookup (bytes_eq name.now) self.now.words.entries }
    {
        self.words.get(name)
    }

    /// How many sorts there are. It takes no memory.
    pub fn len(&self) -> usize
        ensures { result ≡ length self.now.sorts.keys }
    {
        self.sorts.len()
    }

    /// The number of a sort, which is the number of all sorts where it isn't there. It takes no memory.
    pub fn number(&self, sort: &Sort) -> usize
        ensures { result ≡ number_of self.now.sorts.keys sort.now }
    {
        number_in(&self.sorts, sort)
    }

    /// The sort of a number. It takes no memory.
    pub fn sort(&self, number: usize) -> Option<&Sort>
        ensures { option_copied result ≡ slice_get self.now.sorts.keys number }
    {
        self.sorts.get_index(number)
    }
}

/// Whether no operator comes twice among these.
pub fn all_differ(alloc: Global, operators: &[Operator]) -> Result<bool, Memory>
    ensures { IfOk result (λ told. IsTrue told → AreDifferent operators.now) }
{
    let mut before = IndexSet::new(alloc);
    for operator in operators {
        let operator = operator.copy()?;
        if before.contains(&operator) {
            return Ok(false);
        }
        before.insert(operator)?;
    }
    Ok(true)
}

// Sorts, each once: first those that names of few operators make, so that what one name makes has numbers that stand
// close together, and last those that nothing makes.
fn set_of(
    alloc: Global,
    sorts: &[Sort],
    index: &IndexMap<Name, Operators>,
) -> Result<IndexSet<Sort>, Memory> {
    let mut set = IndexSet::new(alloc);
    for most in &LIMITS {
        for name in index.keys() {
            put_made(index, name, *most, &mut set)?;
        }
    }
    for sort in sorts {
        put(sort, &mut set)?;
    }
    Ok(set)
}

// Puts the sorts that the operators of a name make behind others, if there are at most so many operators.
fn put_made(
    index: &IndexMap<Name, Operators>,
    name: &Name,
    most: usize,
    set: &mut IndexSet<Sort>,
) -> Result<(), Memory> {
    let Some(operators) = index.get(name) else {
        return Ok(());
    };
    let operators = operators.as_slice();
    if operators.len() > most {
        return Ok(());
    }
    for operator in operators {
        put(operator.range(), set)?;
    }
    Ok(())
}

// Puts a sort behind others, if it isn't there.
fn put(sort: &Sort, set: &mut IndexSet<Sort>) -> Result<(), Memory> {
    if !set.contains(sort) {
        let sort = sort.copy()?;
        set.insert(sort)?;
    }
    Ok(())
}

// The operators of each name as the numbers of their sorts.
fn names_of(
    alloc: Global,
    sorts: &IndexSet<Sort>,
    index: &IndexMap<Name, Operators>,
) -> Result<IndexMap<Name, Sequence<Numbered>>, Memory>
    ensures { IfOk result (λ names. (n : List ℕ)
        → numbers_under names.entries n ≡ map (as_numbers sorts.now.keys) (kept_under index.now.entries n)) }
{
    let mut names = IndexMap::new(alloc);
    for name in index.keys() {
        let operators = numbers_of(alloc, sorts, index, name)?;
        let name = name.copy()?;
        names.insert(name, operators)?;
    }
    Ok(names)
}

// The operators of one name as the numbers of their sorts.
fn numbers_of(
    alloc: Global,
    sorts: &IndexSet<Sort>,
    index: &IndexMap<Name, Operators>,
    name: &Name,
) -> Result<Sequence<Numbered>, Memory>
    ensures { IfOk result (λ all. all ≡ map (as_numbers sorts.now.keys) (kept_under index.now.entries name.now)) }
{
    match index.get(name) {
        Some(operators) => {
            let all = all_numbered(alloc, sorts, operators.as_slice())?;
            Ok(all)
        }
        None => Ok(Sequence::new(alloc)),
    }
}

// Operators as the numbers of their sorts.
fn all_numbered(
    alloc: Global,
    sorts: &IndexSet<Sort>,
    operators: &[Operator],
) -> Result<Sequence<Numbered>, Memory>
    ensures { IfOk result (λ all. all ≡ map (as_numbers sorts.now.keys) operators.now) }
{
    let mut all = Vec::with_capacity(alloc, operators.len())?;
    for operator in operators {
        let domain = numbers_in(alloc, sorts, operator.domain())?;
        let range = small_number_in(sorts, operator.range())?;
        all.push(Numbered { domain, range })?;
    }
    Ok(Sequence::from_vec(all))
}

// The numbers of sorts.
fn numbers_in(alloc: Global, sorts: &IndexSet<Sort>, these: &[Sort]) -> Result<NumberList, Memory>
    ensures { IfOk result (λ numbers. numbers ≡ map (number_of sorts.now.keys) these.now) }
{
    let mut numbers = Vec::with_capacity(alloc, these.len())?;
    for sort in these {
        let number = small_number_in(sorts, sort)?;
        numbers.push(number)?;
    }
    NumberList::of(alloc, &numbers)
}

// The number of a sort, where there aren't too many sorts.
fn small_number_in(sorts: &IndexSet<Sort>, sort: &Sort) -> Result<u32, Memory>
    ensures { IfOk result (λ number. number ≡ number_of sorts.now.keys sort.now) }
{
    u32::try_from(number_in(sorts, sort)).map_err(|_| Memory)
}

// The number of a sort.
fn number_in(sorts: &IndexSet<Sort>, sort: &Sort) -> usize
    ensures { result ≡ number_of sorts.now.keys sort.now }
{
    match sorts.get_index_of(sort) {
        Some(number) => number,
        None => sorts.len(),
    }
}
