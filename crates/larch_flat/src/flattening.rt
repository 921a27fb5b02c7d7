ghost use Rattle.std.specs.Prelude.{◌≡◌, ◌<◌, true, bytes_eq, not, length, map, IfOk, OnOk, Ok, Some};
ghost use Rattle.larch_base.specs.Answering.{Answers};
ghost use Rattle.larch_base_meaning.specs.Steps.{all_taken};
ghost use Rattle.larch_flat_sources.specs.FlatMeaningFiles.{target};
ghost use Rattle.larch_flat_sources.specs.FlatMeaningGathered.{nothing};
ghost use Rattle.larch_flat_gathering.specs.Keeping.{Keeps};
ghost use Rattle.larch_flat_sources.specs.Links.{AreLinks};
ghost use Rattle.larch_flat_sources.specs.Sources.{files_in, name_at, targets_of};
ghost use Rattle.larch_flat.specs.Known.{AreAllKnown, Grows, Knows, LeavesFlat, is_known, stop_told};
ghost use Rattle.larch_flat.specs.Parts.{IsFlat, flat_trait, parts_of, with_reference};

use crate::flat_traits::FlatTraits;
use crate::taking::{take_target, target_of};
use larch_base::{Code, Fault, Memory, Name};
use larch_flat_gathering::{Flat, Gathering};
use larch_flat_sources::from_traits_items::TraitRefusal;
use larch_flat_sources::{Links, Sources, links_of};
use larch_raw::{RawReference, RawTrait};
use std::alloc::Global;

// What was read of files, with the links between them by their references.
#[derive(Drop)]
struct LinkedSources<'a> {
    sources: &'a Sources,
    links: &'a Links,
}

/// The flat traits of all files, or what is wrong with each first. Each file's own is worked out once, however many
/// refer to it.
pub fn flatten(alloc: Global, sources: &Sources) -> Result<FlatTraits, Memory>
    ensures { IfOk result (λ known. Knows sources.now known × AreAllKnown sources.now known) }
{
    let known = FlatTraits::none(alloc, sources.len())?;
    let known = flatten_rest(alloc, sources, known)?;
    Ok(known)
}

/// The same where something is known already: that isn't worked out again.
pub fn flatten_rest(
    alloc: Global,
    sources: &Sources,
    known: FlatTraits,
) -> Result<FlatTraits, Memory>
    requires { Knows sources.now known }
    ensures { IfOk result (λ known. Knows sources.now known × AreAllKnown sources.now known) }
{
    let mut known = known;
    let links = links_of(alloc, sources)?;
    let linked = LinkedSources {
        sources,
        links: &links,
    };
    for number in 0..sources.len() {
        see_to(alloc, &linked, &mut known, number)?;
    }
    Ok(known)
}

// Sees to it that the flat trait of a file is known.
#[cycle(flatten)]
fn see_to(
    alloc: Global,
    linked: &LinkedSources<'_>,
    known: &mut FlatTraits,
    number: usize,
) -> Result<(), Memory>
    requires number { number < length linked.now.sources.now }
    requires links { AreLinks linked.now.sources.now linked.now.links.now }
    requires known { Knows linked.now.sources.now known.old }
    ensures known { Knows linked.now.sources.now known.new }
    ensures grows { Grows known.old known.new }
    ensures there { OnOk result (is_known known.new number ≡ true) }
{
    if known.has(number) {
        return Ok(());
    }
    let answer = told_of(alloc, linked, known, number)?;
    known.keep(number, answer);
    Ok(())
}

// The flat trait of a file, or what is wrong with it first.
#[cycle(flatten)]
fn told_of(
    alloc: Global,
    linked: &LinkedSources<'_>,
    known: &mut FlatTraits,
    number: usize,
) -> Result<Result<Flat, Fault>, Memory>
    requires number { number < length linked.now.sources.now }
    requires links { AreLinks linked.now.sources.now linked.now.links.now }
    requires known { Knows linked.now.sources.now known.old }
    ensures known { Knows linked.now.sources.now known.new }
    ensures grows { Grows known.old known.new }
    ensures answer { IfOk result (λ answer.
        IsFlat linked.now.sources.now (name_at linked.now.sources.now number) answer) }
{
    match linked.sources.text(number) {
        Ok(raw) => match flat_of(alloc, linked, known, number, raw) {
            Ok(flat) => Ok(Ok(flat)),
            Err(TraitRefusal::Wrong(pos, code)) => Ok(Err(Fault { pos, code })),
            Err(TraitRefusal::Memory) => Err(Memory),
        },
        Err(fault) => Ok(Err(*fault)),
    }
}

// The flat trait of a file that has this text.
#[cycle(flatten)]
fn flat_of(
    alloc: Global,
    linked: &LinkedSources<'_>,
    known: &mut FlatTraits,
    number: usize,
    raw: &RawTrait,
) -> Result<Flat, TraitRefusal>
    requires number { number < length linked.now.sources.now }
    requires text { files_in linked.now.sources.now (name_at linked.now.sources.now number) ≡ Some (Ok raw.now) }
    requires links { AreLinks linked.now.sources.now linked.now.links.now }
    requires known { Knows linked.now.sources.now known.old }
    ensures known { Knows linked.now.sources.now known.new }
    ensures grows { Grows known.old known.new }
    ensures answer { Answers stop_told result
        (parts_of (flat_trait linked.now.sources.now (name_at linked.now.sources.now number))) }
{
    if is_misnamed(raw, linked.sources.name(number)) {
        return Err(TraitRefusal::Wrong(raw.name.pos, Code::TraitName));
    }
    let mut store = Gathering::new(alloc);
    let references = raw.references.as_slice();
    take_references(alloc, linked, known, number, references, &mut store)?;
    let flat = store.take_rest(alloc, raw)?;
    Ok(flat)
}

// Whether a trait has another name than this one.
fn is_misnamed(raw: &RawTrait, name: &Name) -> bool
    ensures { result ≡ not (bytes_eq raw.now.name.name name.now) }
{
    raw.name.name != *name
}

// Takes what the references of a file name, in order, into a store in which nothing is gathered.
#[cycle(flatten)]
fn take_references(
    alloc: Global,
    linked: &LinkedSources<'_>,
    known: &mut FlatTraits,
    number: usize,
    references: &[RawReference],
    store: &mut Gathering,
) -> Result<(), TraitRefusal>
    requires number { number < length linked.now.sources.now }
    requires references { targets_of linked.now.sources.now number ≡ map target references.now }
    requires links { AreLinks linked.now.sources.now linked.now.links.now }
    requires known { Knows linked.now.sources.now known.old }
    requires store { Keeps store.old nothing }
    ensures known { Knows linked.now.sources.now known.new }
    ensures grows { Grows known.old known.new }
    ensures taken { LeavesFlat store.new result (all_taken
        (with_reference linked.now.sources.now (name_at linked.now.sources.now number)) references.now nothing) }
{
    let marks = linked.links.leading_to(alloc, number)?;
    for reference in references {
        let found = target_of(linked.sources, &marks, number, reference)?;
        see_to(alloc, linked, known, found)?;
        take_target(alloc, linked.sources, known, found, reference, store)?;
    }
    Ok(())
}
