ghost use Rattle.std.specs.Prelude.{◌≡◌, ◌<◌, length, IfOk};
ghost use Rattle.larch_flat_sources.specs.Sources.{name_at};
ghost use Rattle.larch_traits.specs.FlatKnown.{AreAllKnown, Knows};
ghost use Rattle.larch_main_files.specs.Report.{IsLineOf, check_of, source_lines};

use larch_base::{Fault, Memory, Sequence};
use larch_flat_sources::Sources;
use larch_report::ReportLine;
use larch_session_meaning::from_duties::duties_of;
use larch_traits::from_flat::{FlatTraits, flatten};
use larch_traits::{Files, read_files};
use larch_traits_items::TraitRefusal;
use std::alloc::Global;

/// The lines of a check of these files. It takes as long as their texts and their flat traits are large; each flat
/// trait is worked out once.
pub fn check_on(alloc: Global, files: &Files) -> Result<Sequence<ReportLine>, Memory>
    ensures { IfOk result (λ lines. lines ≡ check_of files.now) }
{
    let sources = read_files(alloc, files)?;
    let flat_traits = flatten(alloc, &sources)?;
    source_lines(alloc, &sources, &flat_traits)
}

// The lines of what is read of files, of which all flat traits are known.
fn source_lines(
    alloc: Global,
    sources: &Sources,
    flat_traits: &FlatTraits,
) -> Result<Sequence<ReportLine>, Memory>
    requires known { Knows sources.now flat_traits.now }
    requires all { AreAllKnown sources.now flat_traits.now }
    ensures { IfOk result (λ lines. lines ≡ source_lines sources.now) }
{
    let mut lines = Sequence::new(alloc);
    for number in 0..sources.len() {
        let line = line_of(alloc, sources, flat_traits, number)?;
        lines.push(line)?;
    }
    Ok(lines)
}

// The line of the trait of the file with a number, by its duties or what is wrong with it.
fn line_of(
    alloc: Global,
    sources: &Sources,
    flat_traits: &FlatTraits,
    number: usize,
) -> Result<ReportLine, Memory>
    requires number { number < length sources.now }
    requires known { Knows sources.now flat_traits.now }
    requires all { AreAllKnown sources.now flat_traits.now }
    ensures { IfOk result (λ line. IsLineOf sources.now (name_at sources.now number) line) }
{
    let name = sources.name(number).copy()?;
    match duties_of(alloc, sources, flat_traits, number) {
        Ok(_) => Ok(ReportLine::Right(name)),
        Err(TraitRefusal::Wrong(pos, code)) => Ok(ReportLine::Wrong(name, Fault { pos, code })),
        Err(TraitRefusal::Memory) => Err(Memory),
    }
}
