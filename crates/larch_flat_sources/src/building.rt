//! How the links are found.
ghost use Rattle.std.specs.Prelude.{◌≡◌, ℕ, suc, ◌<◌, List, [], ◌∷◌, ◌++◌, length, replicate, IfOk, OnOk};
ghost use Rattle.larch_flat_meaning.specs.Files.{target};
ghost use Rattle.larch_flat_sources.specs.Building.{AreLinksSoFar, with_link};
ghost use Rattle.larch_flat_sources.specs.Links.{AreLinks};

use crate::sources::Sources;
use larch_base::{Memory, Sequence};
use larch_raw::RawReference;
use std::alloc::Global;

// For each file the numbers of those that refer to it.
pub(crate) fn referrers(alloc: Global, sources: &Sources) -> Result<Vec<Sequence<usize>>, Memory>
    ensures { IfOk result (λ referring. AreLinks sources.now referring.items) }
{
    let mut referring = no_links(alloc, sources.len())?;
    for number in 0..sources.len() {
        link_file(sources, number, &mut referring)?;
    }
    Ok(referring)
}

// No links of so many files.
fn no_links(alloc: Global, count: usize) -> Result<Vec<Sequence<usize>>, Memory>
    ensures { IfOk result (λ referring. referring.items ≡ replicate count []) }
{
    let mut referring = Vec::with_capacity(alloc, count)?;
    for _number in 0..count {
        referring.push(Sequence::new(alloc))?;
    }
    Ok(referring)
}

// Links each file that a file refers to with it.
fn link_file(
    sources: &Sources,
    number: usize,
    referring: &mut Vec<Sequence<usize>>,
) -> Result<(), Memory>
    requires number { number < length sources.now }
    requires far { AreLinksSoFar sources.now number [] referring.old.items }
    ensures { OnOk result (AreLinksSoFar sources.now (suc number) [] referring.new.items) }
{
    if let Ok(text) = sources.text(number) {
        for reference in text.references.as_slice() {
            link_reference(sources, number, reference, referring)?;
        }
    }
    Ok(())
}

// Links the file that a reference names, where there is one, with the file that refers to it.
fn link_reference(
    sources: &Sources,
    number: usize,
    reference: &RawReference,
    referring: &mut Vec<Sequence<usize>>,
) -> Result<(), Memory>
    requires number { number < length sources.now }
    requires size { length referring.old.items ≡ length sources.now }
    ensures { OnOk result ((names : List (List ℕ)) → AreLinksSoFar sources.now number names referring.old.items
        → AreLinksSoFar sources.now number (names ++ target reference.now ∷ []) referring.new.items) }
{
    if let Some(to) = sources.number_of(&reference.target.name.name) {
        link(referring, to, number)?;
    }
    Ok(())
}

// Puts a number behind the others in a list, unless it is the last of them.
fn link(referring: &mut Vec<Sequence<usize>>, to: usize, from: usize) -> Result<(), Memory>
    requires { to < length referring.old.items }
    ensures { OnOk result (referring.new.items ≡ with_link referring.old.items to from) }
{
    let numbers = &mut referring[to];
    if numbers.as_slice().last() != Some(&from) {
        numbers.push(from)?;
    }
    Ok(())
}
