//! The flat traits of files with their duties.
ghost use Rattle.std.specs.Prelude.{◌≡◌, ◌<◌, ◌++◌, length, IfErr, IfOk, IfSome, OnOk, true};
ghost use Rattle.std.specs.List.{list_all};
ghost use Rattle.larch_base.specs.FileName.{is_file_name};
ghost use Rattle.larch_words.specs.declared.call.Question.TheVariants.{Obligations as question_obligations};
ghost use Rattle.larch_main_files.specs.Answer.{answer_of};
ghost use Rattle.larch_flat_sources.specs.Sources.{name_at};
ghost use Rattle.larch_traits.specs.FlatKnown.{AreAllKnown, Knows};
ghost use Rattle.larch_main_files.specs.Obligations.{listed_at, listings_of, obligations_answer};
ghost use Rattle.larch_main_files.specs.Questions.{Answered};
ghost use Rattle.larch_main_files.specs.Look.{GatherFaults};
ghost use Rattle.larch_main_files.specs.Turns.{LookInTurn, looks_of};
ghost use Rattle.larch_main_files.specs.Report.{IsLineOf, source_lines};

use crate::answer::{Answer, good_or_remains};
use crate::gather::{GatherRefusal, gather};
use larch_base::{Bytes, Fault, FileName, Memory, Sequence};
use larch_flat_sources::Sources;
use larch_io::Folder;
use larch_report::{ReportLine, append_line, counts_of, is_good};
use larch_session_meaning::from_duties::list_trait;
use larch_traits::from_flat::{FlatTraits, flatten};
use larch_traits::{Files, read_files};
use larch_traits_items::TraitRefusal;
use std::alloc::Global;

/// What is answered where the obligations of the files of these names are asked for.
pub fn obligations<F: Folder>(
    alloc: Global,
    names: &[FileName],
    folder: &mut F,
) -> Result<Answer, GatherRefusal>
    requires { list_all is_file_name names.now ≡ true }
    ensures answer { IfSome (answer_of result) (λ answer.
        Answered question_obligations names.now (F.files folder.old) answer) }
    ensures same { F.files folder.new ≡ F.files folder.old }
    ensures fine { OnOk result (F.faults folder.new ≡ F.faults folder.old) }
    ensures faults { IfErr result (λ refusal. GatherFaults refusal (F.faults folder.old) (F.faults folder.new)) }
    ensures looks { LookInTurn (F.files folder.old) (looks_of question_obligations names.now)
        (F.looks folder.old) (F.looks folder.new) }
{
    let files = gather(alloc, names, folder)?;
    let answer = listings(alloc, &files)?;
    Ok(answer)
}

// The listings of all trait files, and whether nothing is wrong with any.
fn listings(alloc: Global, files: &Files) -> Result<Answer, Memory>
    ensures { IfOk result (λ answer. answer ≡ obligations_answer files.now) }
{
    let sources = read_files(alloc, files)?;
    let flat_traits = flatten(alloc, &sources)?;
    let mut text = Bytes::new(alloc);
    let lines = list_all(alloc, &sources, &flat_traits, &mut text)?;
    text.append(b"end\n")?;
    Ok(Answer {
        text,
        status: good_or_remains(is_good(counts_of(lines.as_slice()))),
    })
}

// Puts the listings of all that is read of files at the end, and answers the lines of the traits.
fn list_all(
    alloc: Global,
    sources: &Sources,
    flat_traits: &FlatTraits,
    text: &mut Bytes,
) -> Result<Sequence<ReportLine>, Memory>
    requires known { Knows sources.now flat_traits.now }
    requires all { AreAllKnown sources.now flat_traits.now }
    ensures lines { IfOk result (λ lines. lines ≡ source_lines sources.now) }
    ensures text { OnOk result (text.new ≡ text.old ++ listings_of sources.now) }
{
    let mut lines = Sequence::new(alloc);
    for number in 0..sources.len() {
        let line = list_one(alloc, sources, flat_traits, number, text)?;
        lines.push(line)?;
    }
    Ok(lines)
}

// Puts the listing of the trait of the file with a number at the end, and answers its line.
fn list_one(
    alloc: Global,
    sources: &Sources,
    flat_traits: &FlatTraits,
    number: usize,
    text: &mut Bytes,
) -> Result<ReportLine, Memory>
    requires number { number < length sources.now }
    requires known { Knows sources.now flat_traits.now }
    requires all { AreAllKnown sources.now flat_traits.now }
    ensures line { IfOk result (λ line. IsLineOf sources.now (name_at sources.now number) line) }
    ensures text { OnOk result (text.new ≡ text.old ++ listed_at sources.now (name_at sources.now number)) }
{
    let name = sources.name(number).copy()?;
    match list_trait(alloc, sources, flat_traits, number) {
        Ok(listed) => {
            let line = ReportLine::Right(name);
            append_line(alloc, text, &line)?;
            text.append(listed.bytes())?;
            Ok(line)
        }
        Err(TraitRefusal::Wrong(pos, code)) => {
            let line = ReportLine::Wrong(name, Fault { pos, code });
            append_line(alloc, text, &line)?;
            Ok(line)
        }
        Err(TraitRefusal::Memory) => Err(Memory),
    }
}
