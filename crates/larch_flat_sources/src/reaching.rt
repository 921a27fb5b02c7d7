//! What is reached over all references. What is to be visited waits in a vector: nothing goes down by recursion.
ghost use Rattle.std.specs.Prelude.{◌≡◌, ◌+◌, ◌≤◌, ◌++◌, ◌∷◌, [], ℕ, false, bytes_eq, List, length};
ghost use Rattle.std.specs.Prelude.{map, reverse, IfOk, OnOk, Some};
ghost use Rattle.std.specs.List.{list_any};
ghost use Rattle.larch_flat_meaning.specs.Files.{target};
ghost use Rattle.larch_flat_meaning.specs.Reached.{AreReached, Visits, all_targets_in, implied_target};
ghost use Rattle.larch_flat_sources.specs.Reaching.{references_left};
ghost use Rattle.larch_flat_sources.specs.Sources.{files_in};

use crate::sources::Sources;
use indexmap::IndexSet;
use larch_base::{Fault, Memory, Name, Sequence};
use larch_raw::{RawRef, RawReference, RawTrait};
use std::alloc::Global;

/// The names that are reached from one over all references, those of what is implied among them: itself, and names
/// without files too, each once, in the order in which they are first visited, depth first. It takes as long as the
/// files that are reached have references.
pub fn reached(alloc: Global, sources: &Sources, name: &Name) -> Result<Sequence<Name>, Memory>
    ensures { IfOk result (λ names. AreReached (files_in sources.now) name.now names) }
{
    let mut seen = IndexSet::new(alloc);
    let mut waiting = Vec::new(alloc);
    waiting.push(name)?;
    while let Some(next) = waiting.pop() {
        visit(sources, next, &mut seen, &mut waiting)?;
    }
    let names = listed(alloc, seen)?;
    Ok(names)
}

// Visits a name, unless it was visited; what its references name waits behind all others, the last of them first.
fn visit<'a>(
    sources: &'a Sources,
    name: &'a Name,
    seen: &mut IndexSet<Name>,
    waiting: &mut Vec<&'a Name>,
) -> Result<(), Memory>
    ensures goes_on { OnOk result ((all : List (List ℕ))
        → Visits (files_in sources.now) seen.new.keys (reverse (map (λ n. n.now) waiting.new.items)) all
        → Visits (files_in sources.now) seen.old.keys (name.now ∷ reverse (map (λ n. n.now) waiting.old.items)) all) }
    ensures fewer { OnOk result (references_left sources.now seen.new.keys + length waiting.new.items
        ≤ references_left sources.now seen.old.keys + length waiting.old.items) }
{
    if is_seen(seen, name) {
        return Ok(());
    }
    see(seen, name)?;
    push_targets(sources, name, waiting)?;
    Ok(())
}

// Whether a name was visited.
fn is_seen(seen: &IndexSet<Name>, name: &Name) -> bool
    ensures { result ≡ list_any (bytes_eq name.now) seen.now.keys }
{
    seen.contains(name)
}

// With one more name.
fn see(seen: &mut IndexSet<Name>, name: &Name) -> Result<(), Memory>
    requires { list_any (bytes_eq name.now) seen.old.keys ≡ false }
    ensures { OnOk result (seen.new.keys ≡ seen.old.keys ++ name.now ∷ []) }
{
    let name = name.copy()?;
    seen.insert(name)?;
    Ok(())
}

// Puts what the references of a name name behind others, the last of them first.
fn push_targets<'a>(
    sources: &'a Sources,
    name: &Name,
    waiting: &mut Vec<&'a Name>,
) -> Result<(), Memory>
    ensures { OnOk result (map (λ n. n.now) waiting.new.items
        ≡ map (λ n. n.now) waiting.old.items ++ reverse (all_targets_in (files_in sources.now name.now))) }
{
    match sources.number_of(name) {
        None => Ok(()),
        Some(number) => {
            push_text_targets(sources.text(number), waiting)?;
            Ok(())
        }
    }
}

// The same for what a text says.
fn push_text_targets<'a>(
    text: &'a Result<RawTrait, Fault>,
    waiting: &mut Vec<&'a Name>,
) -> Result<(), Memory>
    ensures { OnOk result (map (λ n. n.now) waiting.new.items
        ≡ map (λ n. n.now) waiting.old.items ++ reverse (all_targets_in (Some text.now))) }
{
    match text {
        Ok(raw) => {
            push_all_targets(raw, waiting)?;
            Ok(())
        }
        Err(_) => Ok(()),
    }
}

// The same for a trait as it is written.
fn push_all_targets<'a>(raw: &'a RawTrait, waiting: &mut Vec<&'a Name>) -> Result<(), Memory>
    ensures { OnOk result (map (λ n. n.now) waiting.new.items ≡ map (λ n. n.now) waiting.old.items
        ++ reverse (map target raw.now.references ++ map implied_target raw.now.implied)) }
{
    let implied = raw.implied.as_slice();
    let references = raw.references.as_slice();
    push_implied(implied, waiting)?;
    push_references(references, waiting)?;
    Ok(())
}

// Puts what implied references name behind others, the last of them first.
fn push_implied<'a>(references: &'a [RawRef], waiting: &mut Vec<&'a Name>) -> Result<(), Memory>
    ensures { OnOk result (map (λ n. n.now) waiting.new.items
        ≡ map (λ n. n.now) waiting.old.items ++ reverse (map implied_target references.now)) }
{
    let mut index = references.len();
    while index > 0 {
        index -= 1;
        waiting.push(&references[index].name.name)?;
    }
    Ok(())
}

// Puts what included and assumed references name behind others, the last of them first.
fn push_references<'a>(
    references: &'a [RawReference],
    waiting: &mut Vec<&'a Name>,
) -> Result<(), Memory>
    ensures { OnOk result (map (λ n. n.now) waiting.new.items
        ≡ map (λ n. n.now) waiting.old.items ++ reverse (map target references.now)) }
{
    let mut index = references.len();
    while index > 0 {
        index -= 1;
        waiting.push(&references[index].target.name.name)?;
    }
    Ok(())
}

// The names of a set.
fn listed(alloc: Global, seen: IndexSet<Name>) -> Result<Sequence<Name>, Memory>
    ensures { IfOk result (λ names. names ≡ seen.keys) }
{
    let mut names = Sequence::new(alloc);
    for name in seen {
        names.push(name)?;
    }
    Ok(names)
}
