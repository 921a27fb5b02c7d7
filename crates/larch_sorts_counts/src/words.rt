ghost use Rattle.std.specs.Map.{lookup};
ghost use Rattle.std.specs.Prelude.{◌≡◌, ℕ, List, [], IfOk, IfSome, OnOk, bytes_eq};
ghost use Rattle.larch_sorts_counts.specs.Count.{counts_made};
ghost use Rattle.larch_sorts_counts.specs.Numbers.{AreWords, numbers_under};

use crate::numbers::Numbered;
use crate::tally::{SortCounts, counts_made, made_between};
use indexmap::IndexMap;
use larch_sorts_meaning::from_base::{Memory, Name, Sequence};
use std::alloc::Global;

// The counts of a name are kept where they are at most so many times its operators.
const SHARE: usize = 16;

// The counts of what names make of no arguments, for names that have many operators beside the sorts between which they
// make something.
pub(crate) fn words_of(
    alloc: Global,
    size: usize,
    names: &IndexMap<Name, Sequence<Numbered>>,
) -> Result<IndexMap<Name, SortCounts>, Memory>
    ensures { IfOk result (λ words. AreWords size names.now.entries words.entries) }
{
    let mut words = IndexMap::new(alloc);
    for name in names.keys() {
        note(alloc, size, names, name, &mut words)?;
    }
    Ok(words)
}

// Notes the counts of one name.
#[tactic(auto, using(crate::proofs::Numbering::word_noted))]
fn note(
    alloc: Global,
    size: usize,
    names: &IndexMap<Name, Sequence<Numbered>>,
    name: &Name,
    words: &mut IndexMap<Name, SortCounts>,
) -> Result<(), Memory>
    ensures { OnOk result ((n : List ℕ)
        → IfSome (lookup (bytes_eq n) words.old.entries)
        (λ counts. counts ≡ counts_made size [] (numbers_under names.now.entries n))
        → IfSome (lookup (bytes_eq n) words.new.entries)
        (λ counts. counts ≡ counts_made size [] (numbers_under names.now.entries n))) }
{
    let Some(operators) = names.get(name) else {
        return Ok(());
    };
    let operators = operators.as_slice();
    let (first, end) = made_between(size, operators);
    if operators.len() < end.saturating_sub(first) / SHARE {
        return Ok(());
    }
    let counts = counts_made(alloc, size, operators, &[])?;
    let name = name.copy()?;
    words.insert(name, counts)?;
    Ok(())
}
