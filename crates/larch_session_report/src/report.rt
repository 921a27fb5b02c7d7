ghost use Rattle.std.specs.Prelude.{◌≡◌, ◌<◌, ◌≤◌, ◌+◌, ◌-◌, ◌^◌, ◌++◌, ◌∷◌, [], ℕ, filter, length, map, min};
ghost use Rattle.std.specs.Prelude.{All, List, IfOk};
ghost use Rattle.std.specs.Prelude.{Ok, OnOk};
ghost use Rattle.larch_base.specs.FileName.{stem_of};
ghost use Rattle.larch_session_replay.specs.FlatSourcesSources.{name_at};
ghost use Rattle.larch_prove_meaning.specs.Redo.{redo, trait_replayed};
ghost use Rattle.larch_prove_meaning.specs.Reports.{all_answered};
ghost use Rattle.larch_report.specs.declared.line.ReportLine.TheVariants.{Right, Stray, Wrong};
ghost use Rattle.larch_script_commands.specs.Worded.{WordedScript};
ghost use Rattle.larch_session_kept.specs.Kept.{limit_in, records_in};
ghost use Rattle.larch_session_replay.specs.SessionSourcesJustified.{AreJustified, IsJustifiedReport};
ghost use Rattle.larch_session_replay.specs.SessionSourcesLooked.{IsRead, lines_at};
ghost use Rattle.larch_session_replay.specs.SessionLawCertified.{IsJustified};
ghost use Rattle.larch_session_replay.specs.SessionLawClaims.{AreClaims};
ghost use Rattle.larch_session_replay.specs.SessionMeaningFiles.{is_stray, report_of, script_among};
ghost use Rattle.larch_session_replay.specs.SessionMeaningFiles.{source_lines, stray_lines};
ghost use Rattle.larch_session_replay.specs.SessionMeaningRedone.{replayed_on};
ghost use Rattle.larch_session_replay.specs.SessionMeaningTraits.{reported_line, script_duty, trait_report};
ghost use Rattle.larch_session_replay.specs.Replayed.{answer_lines, answer_of};
ghost use Rattle.larch_session_report.specs.Replayed.{replayed_at};

use larch_base::{Fault, FileName, Memory, Name, Sequence, Steps};
use larch_report::ReportLine;
use larch_session_kept::{Base, Replaying, replay_duties};
use larch_session_replay::from_duties::{Claims, trait_claims};
use larch_session_replay::from_flat::flatten;
use larch_session_replay::from_session_sources::{Looked, has_trait, script_among};
use larch_session_replay::from_traits::{Files, TraitRefusal, read_files};
use larch_session_replay::{Replayed, push_trait_lines, steps_of};
use std::alloc::Global;
use std::rc::Rc;
use std::sync::ledger::Ledger;

/// A report as far as it is made: its lines, and what is kept for the next one.
#[derive(Drop)]
pub struct Report {
    pub lines: Sequence<ReportLine>,
    pub base: Base,
}

/// The report on files, and how many steps it took, which stands still at the last number. Each flat trait, each theory
/// and each script is worked out once; duties go on from what the report before has kept.
pub fn report_on<L: Ledger>(
    alloc: Global,
    files: &Files,
    before: &Base,
    steps: &mut Steps<L>,
) -> Result<(Report, u64), Memory>
    ensures lines { IfOk result (λ made. made.0.lines ≡ report_of (limit_in before.now) files.now) }
    ensures limit { IfOk result (λ made. limit_in made.0.base ≡ limit_in before.now) }
    ensures base { IfOk result (λ made. records_in made.0.base ≡ replayed_on (limit_in before.now) files.now) }
    ensures proved { OnOk result (IsJustifiedReport (limit_in before.now) files.now) }
    ensures work { IfOk result (λ made. made.1 ≡ min (steps.new - steps.old) (2 ^ 64 - 1)) }
    ensures least { steps.old ≤ steps.new }
    ensures most { steps.new ≤ steps.old + redo (records_in before.now) (replayed_on (limit_in before.now) files.now) }
{
    let sources = read_files(alloc, files)?;
    let flat_traits = flatten(alloc, &sources)?;
    let looked = Looked {
        files,
        sources: &sources,
        flat_traits: &flat_traits,
        limit: before.limit(),
    };
    let mut report = Report {
        lines: Sequence::new(alloc),
        base: Base::new(alloc, before.limit()),
    };
    let work = push_source_lines(alloc, &looked, before, &mut report, steps)?;
    push_stray_lines(alloc, files, &mut report.lines)?;
    Ok((report, work))
}

// Puts the lines of all traits behind those of a report.
fn push_source_lines<L: Ledger>(
    alloc: Global,
    looked: &Looked<'_>,
    before: &Base,
    report: &mut Report,
    steps: &mut Steps<L>,
) -> Result<u64, Memory>
    requires read { IsRead looked.now }
    requires limit { (looked.now.limit ≡ limit_in before.now) × (limit_in report.old.base ≡ limit_in before.now) }
    ensures lines { OnOk result (report.new.lines
        ≡ report.old.lines ++ source_lines looked.now.limit looked.now.files.now looked.now.sources.now) }
    ensures limit { limit_in report.new.base ≡ limit_in report.old.base }
    ensures base { OnOk result (records_in report.new.base
        ≡ records_in report.old.base ++ replayed_on looked.now.limit looked.now.files.now) }
    ensures proved { OnOk result (All (λ source. AreJustified looked.now.limit looked.now.files.now source.0)
        looked.now.sources.now) }
    ensures work { IfOk result (λ work. work ≡ min (steps.new - steps.old) (2 ^ 64 - 1)) }
    ensures least { steps.old ≤ steps.new }
    ensures most { steps.new ≤ steps.old + redo (records_in before.now)
        (replayed_on looked.now.limit looked.now.files.now) }
{
    let mut work: u64 = 0;
    for number in 0..looked.sources.len() {
        let taken = push_lines_at(alloc, looked, before, number, report, steps)?;
        work = work.saturating_add(taken);
    }
    Ok(work)
}

// Puts the lines of the trait of the file with a number behind those of a report.
fn push_lines_at<L: Ledger>(
    alloc: Global,
    looked: &Looked<'_>,
    before: &Base,
    number: usize,
    report: &mut Report,
    steps: &mut Steps<L>,
) -> Result<u64, Memory>
    requires read { IsRead looked.now }
    requires number { number < length looked.now.sources.now }
    requires limit { (looked.now.limit ≡ limit_in before.now) × (limit_in report.old.base ≡ limit_in before.now) }
    ensures lines { OnOk result (report.new.lines ≡ report.old.lines ++ lines_at looked.now number) }
    ensures limit { limit_in report.new.base ≡ limit_in report.old.base }
    ensures base { OnOk result (records_in report.new.base
        ≡ records_in report.old.base ++ replayed_at looked.now number) }
    ensures proved { OnOk result (AreJustified looked.now.limit looked.now.files.now
        (name_at looked.now.sources.now number)) }
    ensures work { IfOk result (λ work. work ≡ min (steps.new - steps.old) (2 ^ 64 - 1)) }
    ensures least { steps.old ≤ steps.new }
    ensures most { steps.new ≤ steps.old + redo (records_in before.now) (replayed_at looked.now number) }
{
    let stem = looked.sources.name(number);
    match trait_claims(alloc, looked.sources, looked.flat_traits, number) {
        Ok(claims) => {
            let named = Named { stem, before };
            push_claimed_lines(alloc, looked, &named, claims, report, steps)
        }
        Err(TraitRefusal::Wrong(pos, code)) => {
            push_wrong_line(&mut report.lines, stem, Fault { pos, code })
        }
        Err(TraitRefusal::Memory) => Err(Memory),
    }
}

// The name of a trait, and what the report before has kept.
#[derive(Drop)]
struct Named<'a> {
    stem: &'a Name,
    before: &'a Base,
}

// Puts the lines of a trait that claims this behind those of a report, by its script among the files.
fn push_claimed_lines<L: Ledger>(
    alloc: Global,
    looked: &Looked<'_>,
    named: &Named<'_>,
    claims: Claims,
    report: &mut Report,
    steps: &mut Steps<L>,
) -> Result<u64, Memory>
    requires claims { AreClaims (map script_duty claims) }
    requires limit { (looked.now.limit ≡ limit_in named.now.before.now)
        × (limit_in report.old.base ≡ limit_in named.now.before.now) }
    ensures lines { OnOk result (report.new.lines ≡ report.old.lines ++ trait_report looked.now.limit
        (script_among looked.now.files.now named.now.stem.now) named.now.stem.now (Ok claims)) }
    ensures limit { limit_in report.new.base ≡ limit_in report.old.base }
    ensures base { OnOk result (records_in report.new.base ≡ records_in report.old.base ++ trait_replayed
        looked.now.limit named.now.stem.now (script_among looked.now.files.now named.now.stem.now)
        (map script_duty claims)) }
    ensures proved { OnOk result (All IsJustified (all_answered looked.now.limit
        (script_among looked.now.files.now named.now.stem.now) [] 1 (map script_duty claims))) }
    ensures work { IfOk result (λ work. work ≡ min (steps.new - steps.old) (2 ^ 64 - 1)) }
    ensures least { steps.old ≤ steps.new }
    ensures most { steps.new ≤ steps.old + redo (records_in named.now.before.now) (trait_replayed
        looked.now.limit named.now.stem.now (script_among looked.now.files.now named.now.stem.now)
        (map script_duty claims)) }
{
    let script = script_among(alloc, looked.files, named.stem.bytes())?;
    let script = Rc::new(alloc, script)?;
    let replaying = Replaying {
        stem: named.stem,
        script: &script,
        before: named.before,
    };
    push_right_lines(alloc, &replaying, claims, report, steps)
}

// Puts the lines of a trait that is right and claims this behind those of a report.
fn push_right_lines<L: Ledger>(
    alloc: Global,
    replaying: &Replaying<'_>,
    claims: Claims,
    report: &mut Report,
    steps: &mut Steps<L>,
) -> Result<u64, Memory>
    requires claims { AreClaims (map script_duty claims) }
    requires worded { WordedScript replaying.now.script.now.value }
    requires limit { limit_in report.old.base ≡ limit_in replaying.now.before.now }
    ensures lines { OnOk result (report.new.lines ≡ report.old.lines ++ trait_report
        (limit_in replaying.now.before.now) replaying.now.script.now.value replaying.now.stem.now (Ok claims)) }
    ensures limit { limit_in report.new.base ≡ limit_in report.old.base }
    ensures base { OnOk result (records_in report.new.base ≡ records_in report.old.base ++ trait_replayed
        (limit_in replaying.now.before.now) replaying.now.stem.now replaying.now.script.now.value
        (map script_duty claims)) }
    ensures proved { OnOk result (All IsJustified (all_answered (limit_in replaying.now.before.now)
        replaying.now.script.now.value [] 1 (map script_duty claims))) }
    ensures work { IfOk result (λ work. work ≡ min (steps.new - steps.old) (2 ^ 64 - 1)) }
    ensures least { steps.old ≤ steps.new }
    ensures most { steps.new ≤ steps.old + redo (records_in replaying.now.before.now) (trait_replayed
        (limit_in replaying.now.before.now) replaying.now.stem.now replaying.now.script.now.value
        (map script_duty claims)) }
{
    let replays = replay_duties(alloc, replaying, claims, &mut report.base, steps)?;
    push_replayed_lines(alloc, replaying, replays.as_slice(), &mut report.lines)?;
    Ok(steps_of(replays.as_slice()))
}

// Puts the line of a trait that is right, those of its duties and those of its script behind others.
fn push_replayed_lines(
    alloc: Global,
    replaying: &Replaying<'_>,
    replays: &[Replayed],
    lines: &mut Sequence<ReportLine>,
) -> Result<(), Memory>
    ensures { OnOk result (lines.new ≡ lines.old ++ Right replaying.now.stem.now ∷ map reported_line
        (answer_lines replaying.now.script.now.value (map answer_of replays.now))) }
{
    let name = replaying.stem.copy()?;
    lines.push(ReportLine::Right(name))?;
    push_trait_lines(alloc, lines, replaying.script, replays)
}

// Puts the line of a trait that is wrong behind others.
fn push_wrong_line(
    lines: &mut Sequence<ReportLine>,
    stem: &Name,
    fault: Fault,
) -> Result<u64, Memory>
    ensures lines { OnOk result (lines.new ≡ lines.old ++ Wrong stem.now fault ∷ []) }
    ensures work { IfOk result (λ work. work ≡ 0) }
{
    let name = stem.copy()?;
    lines.push(ReportLine::Wrong(name, fault))?;
    Ok(0)
}

// Puts the lines of scripts without a trait behind others.
fn push_stray_lines(
    alloc: Global,
    files: &Files,
    lines: &mut Sequence<ReportLine>,
) -> Result<(), Memory>
    ensures { OnOk result (lines.new ≡ lines.old ++ stray_lines files.now) }
{
    for name in files.names() {
        push_if_stray(alloc, files, lines, name)?;
    }
    Ok(())
}

// Puts the line of the file of a name behind others, if it is a script without a trait.
fn push_if_stray(
    alloc: Global,
    files: &Files,
    lines: &mut Sequence<ReportLine>,
    name: &FileName,
) -> Result<(), Memory>
    ensures { OnOk result ((rest : List (List ℕ))
        → lines.new ++ map (λ n. Stray (stem_of n)) (filter (is_stray files.now) rest)
        ≡ lines.old ++ map (λ n. Stray (stem_of n)) (filter (is_stray files.now) (name.now ∷ rest))) }
{
    let stray = is_stray(alloc, files, name)?;
    if !stray {
        return Ok(());
    }
    let stem = Name::new(alloc, name.stem())?;
    lines.push(ReportLine::Stray(stem))
}

// Whether the file of this name is a script without a trait.
fn is_stray(alloc: Global, files: &Files, name: &FileName) -> Result<bool, Memory>
    ensures { IfOk result (λ stray. stray ≡ is_stray files.now name.now) }
{
    if name.is_trait() {
        return Ok(false);
    }
    let there = has_trait(alloc, files, name.stem())?;
    Ok(!there)
}
