ghost use Rattle.std.specs.Prelude.{◌≡◌, ◌≤◌, ◌<◌, ◌+◌, ◌-◌, ℕ, All, IfOk, IfSome, length, map, set, suc};
ghost use Rattle.larch_sorts_counts.specs.Counted.{counts_in};
ghost use Rattle.larch_sorts_counts.specs.Count.{alone, count_at, counts_made, plus, product, sum_to, times, together};
ghost use Rattle.larch_sorts_counts.specs.Spread.{LiesBetween, spread};
ghost use Rattle.larch_sorts_counts.specs.declared.count.Count.TheVariants.{Never};

use crate::count::Count;
use crate::counts::Counted;
use crate::numbers::Numbered;
use crate::pairing::count_pairs;
use larch_sorts_meaning::from_base::Memory;
use std::alloc::Global;
use std::marker::Model;

/// How often something is found at each of so many numbers. The counts are held from the first number at which
/// something may be found to the last. Contracts see all of them, by number.
#[derive(Drop)]
pub struct SortCounts {
    numbers: usize,
    first: usize,
    held: Vec<Count>,
}

impl Model for SortCounts {
    ghost use Rattle.std.specs.Prelude.{◌+◌, ◌≤◌, List, length};
    ghost use Rattle.larch_sorts_counts.specs.Spread.{spread};
    ghost use Rattle.larch_sorts_counts.specs.declared.count.Count.{Count};

    ghost Value = { List Count };

    ghost view = { λ counts. spread counts.numbers counts.first counts.held.items };

    ghost invariant = { λ counts. counts.first + length counts.held.items ≤ counts.numbers };
}

impl SortCounts {
    // The same counts once more.
    pub(crate) fn copy(&self, alloc: Global) -> Result<SortCounts, Memory>
        ensures { IfOk result (λ counts. counts ≡ self.now) }
    {
        let held = Vec::from_slice(alloc, &self.held)?;
        Ok(SortCounts {
            numbers: self.numbers,
            first: self.first,
            held,
        })
    }
}

/// The count at a number, which is none where there is no such number. It takes no memory.
pub fn count_at(counts: &SortCounts, number: usize) -> Count
    ensures { result ≡ count_at counts.now number }
{
    if number < counts.first {
        return Count::Never;
    }
    let place = number - counts.first;
    if place < counts.held.len() {
        counts.held[place]
    } else {
        Count::Never
    }
}

/// Between which of so many numbers all counts lie: from the first on, and before the second. It takes no memory.
pub fn span(counts: &SortCounts, size: usize) -> (usize, usize)
    ensures order { (result.0 ≤ result.1) × (result.1 ≤ size) }
    ensures before { (k : ℕ) → k < result.0 → count_at counts.now k ≡ Never }
    ensures behind { (k : ℕ) → result.1 ≤ k → k < size → count_at counts.now k ≡ Never }
{
    if size < counts.first {
        return (size, size);
    }
    let room = size - counts.first;
    let length = counts.held.len();
    let length = if room < length { room } else { length };
    (counts.first, counts.first + length)
}

// No counts of so many sorts but that of one number.
pub(crate) fn alone(
    alloc: Global,
    size: usize,
    number: usize,
    count: Count,
) -> Result<SortCounts, Memory>
    ensures { IfOk result (λ counts. counts ≡ alone size number count) }
{
    let Some(numbers) = size.checked_add(1) else {
        return Err(Memory);
    };
    let mut held = Vec::new(alloc);
    if numbers <= number {
        return Ok(SortCounts {
            numbers,
            first: 0,
            held,
        });
    }
    held.push(count)?;
    Ok(SortCounts {
        numbers,
        first: number,
        held,
    })
}

// The counts, of so many sorts, of what operators make of arguments.
pub(crate) fn counts_made(
    alloc: Global,
    size: usize,
    operators: &[Numbered],
    arguments: &[Counted],
) -> Result<SortCounts, Memory>
    ensures { IfOk result (λ counts. counts
        ≡ counts_made size (map counts_in arguments.now) operators.now) }
{
    let Some(numbers) = size.checked_add(1) else {
        return Err(Memory);
    };
    let (first, end) = made_between(numbers, operators);
    let mut held = vec![in alloc; Count::Never; end.saturating_sub(first)]?;
    for operator in operators {
        let count = product(arguments, operator.domain.as_slice());
        add(&mut held, first, numbers, operator.range as usize, count);
    }
    Ok(SortCounts {
        numbers,
        first,
        held,
    })
}

// Adds to the count at a number, where there is such a number.
fn add(held: &mut Vec<Count>, first: usize, numbers: usize, number: usize, count: Count)
    requires fits { first + length held.old.items ≤ numbers }
    requires lies { LiesBetween first (first + length held.old.items) numbers number }
    ensures length { length held.new.items ≡ length held.old.items }
    ensures added { spread numbers first held.new.items
        ≡ set (spread numbers first held.old.items) number
        (plus (count_at (spread numbers first held.old.items) number) count) }
{
    if numbers <= number {
        return;
    }
    if !count.occurs() {
        return;
    }
    let place = number - first;
    held[place] = held[place].plus(count);
}

/// Between which of so many numbers operators make something: from the first on, and before the second. It takes no
/// memory.
pub(crate) fn made_between(numbers: usize, operators: &[Numbered]) -> (usize, usize)
    ensures first { result.0 ≤ numbers }
    ensures end { result.1 ≤ numbers }
    ensures lie { All (λ g. LiesBetween result.0 result.1 numbers g.range) operators.now }
{
    let mut first = numbers;
    let mut end = 0;
    for operator in operators {
        let (least, most) = range_with(first, end, numbers, operator.range as usize);
        first = least;
        end = most;
    }
    (first, end)
}

// The two numbers, so that one more lies between them.
fn range_with(first: usize, end: usize, numbers: usize, number: usize) -> (usize, usize)
    ensures first { result.0 ≤ first }
    ensures end { end ≤ result.1 }
    ensures within { end ≤ numbers → result.1 ≤ numbers }
    ensures lies { LiesBetween result.0 result.1 numbers number }
{
    if numbers <= number {
        return (first, end);
    }
    let least = if number < first { number } else { first };
    let most = if end <= number { number + 1 } else { end };
    (least, most)
}

/// How often arguments have these numbers, one by one. It takes no memory.
pub fn product(arguments: &[Counted], numbers: &[u32]) -> Count
    ensures { result ≡ product (map counts_in arguments.now) numbers.now }
{
    if arguments.len() != numbers.len() {
        return Count::Never;
    }
    let mut product = Count::Once;
    for i in 0..numbers.len() {
        let count = count_at(&arguments[i].counts, numbers[i] as usize);
        product = product.times(count);
        if let Count::Never = product {
            return Count::Never;
        }
    }
    product
}

/// The counts of so many sorts, and of what is none of them, together. It takes no memory.
pub fn total(size: usize, counts: &SortCounts) -> Count
    ensures { result ≡ sum_to (count_at counts.now) (suc size) }
{
    common(size, counts, counts).plus(count_at(counts, size))
}

/// How often two terms have one of so many sorts in common, where they have none in common that is none of them. It
/// takes no memory.
pub fn meeting(size: usize, left: &SortCounts, right: &SortCounts) -> Option<Count>
    ensures { IfSome result (λ count. (times (count_at left.now size) (count_at right.now size) ≡ Never)
        × (count ≡ sum_to (together left.now right.now) size)) }
{
    let Count::Never = count_at(left, size).times(count_at(right, size)) else {
        return None;
    };
    Some(common(size, left, right))
}

// How often two terms have one of so many sorts in common: a term with itself, as often as it reads at one.
fn common(size: usize, left: &SortCounts, right: &SortCounts) -> Count
    ensures { result ≡ sum_to (together left.now right.now) size }
{
    let first = left.first.max(right.first);
    let behind_left = left.first.saturating_add(left.held.len());
    let behind_right = right.first.saturating_add(right.held.len());
    let end = size.min(behind_left.min(behind_right));
    if end <= first {
        return Count::Never;
    }
    let lefts = &left.held[first - left.first..end - left.first];
    let rights = &right.held[first - right.first..end - right.first];
    count_pairs(lefts, rights)
}
