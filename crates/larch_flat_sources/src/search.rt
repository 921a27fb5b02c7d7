//! The search against the references.
ghost use Rattle.std.specs.Prelude.{◌≡◌, ℕ, suc, ◌<◌, get_or, length, IfOk, OnOk};
ghost use Rattle.std.specs.Bool.{Decides};
ghost use Rattle.larch_flat_sources.specs.Links.{AreWithin, Leads, is_marked, referring};
ghost use Rattle.larch_flat_sources.specs.Search.{Searching};

use larch_base::{Memory, Sequence};
use std::alloc::Global;

// Whether each number leads to this one. Each number is found once, and what refers to it is looked at once.
pub(crate) fn marked_from(
    alloc: Global,
    links: &[Sequence<usize>],
    number: usize,
) -> Result<Vec<bool>, Memory>
    requires number { number < length links.now }
    requires within { AreWithin links.now }
    ensures size { IfOk result (λ marked. length marked.items ≡ length links.now) }
    ensures leads { IfOk result (λ marked. (m : ℕ) → Decides (is_marked marked.items m) (Leads links.now m number)) }
{
    let mut marked = vec![in alloc; false; links.len()]?;
    let mut found = Vec::new(alloc);
    found.push(number)?;
    marked[number] = true;
    let mut next = 0;
    while next < found.len() {
        mark_referring(links, next, &mut marked, &mut found)?;
        next += 1;
    }
    Ok(marked)
}

// Marks what refers to the number that was found at a place, and puts what wasn't marked before behind what was found.
fn mark_referring(
    links: &[Sequence<usize>],
    next: usize,
    marked: &mut Vec<bool>,
    found: &mut Vec<usize>,
) -> Result<(), Memory>
    requires next { next < length found.old.items }
    requires within { AreWithin links.now }
    requires searching { Searching links.now marked.old.items found.old.items next }
    ensures searching { OnOk result (Searching links.now marked.new.items found.new.items (suc next)) }
    ensures first { OnOk result (get_or found.new.items 0 0 ≡ get_or found.old.items 0 0) }
{
    let numbers = referring_to(links, found[next]);
    for number in numbers {
        if !marked[*number] {
            found.push(*number)?;
            marked[*number] = true;
        }
    }
    Ok(())
}

// The numbers that refer to one.
fn referring_to(links: &[Sequence<usize>], number: usize) -> &[usize]
    requires { number < length links.now }
    ensures { result.now ≡ referring links.now number }
{
    links[number].as_slice()
}
