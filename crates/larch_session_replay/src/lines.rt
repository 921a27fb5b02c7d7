ghost use Rattle.std.specs.Prelude.{◌≡◌, ◌++◌, IfOk, OnOk, map};
ghost use Rattle.larch_prove.specs.State.{place_of, told_outcome};
ghost use Rattle.larch_prove_meaning.specs.Reports.{line_for, line_of_place};
ghost use Rattle.larch_prove_meaning.specs.Scripts.{block_of};
ghost use Rattle.larch_report.specs.declared.line.ReportLine.TheVariants.{Duty};
ghost use Rattle.larch_session_blocks.specs.SessionMeaningTraits.{reported_line};
ghost use Rattle.larch_session_replay.specs.Replayed.{answer_of, answer_lines};

use crate::replayed::Replayed;
use larch_base::{Label, Memory, Sequence};
use larch_prove::{Outcome, Place};
use larch_report::{DutyOutcome, ReportLine};
use larch_script_commands::Script;
use larch_session_blocks::{commands_for, line_at, line_of_block, push_script_lines};
use larch_term::copy;
use std::alloc::Global;

/// Puts the lines of a trait's duties behind others, and then those of its script.
pub fn push_trait_lines(
    alloc: Global,
    lines: &mut Sequence<ReportLine>,
    script: &Script,
    replays: &[Replayed],
) -> Result<(), Memory>
    ensures { OnOk result (lines.new ≡ lines.old
        ++ map reported_line (answer_lines script.now (map answer_of replays.now))) }
{
    push_duty_lines(alloc, lines, script, replays)?;
    let labels = labels_of(alloc, replays)?;
    push_script_lines(alloc, lines, labels.as_slice(), script.blocks.as_slice())
}

// Puts the lines of duties behind others.
fn push_duty_lines(
    alloc: Global,
    lines: &mut Sequence<ReportLine>,
    script: &Script,
    replays: &[Replayed],
) -> Result<(), Memory>
    ensures { OnOk result (lines.new ≡ lines.old
        ++ map (λ r. reported_line (line_for script.now r.claim.label (told_outcome r.outcome))) replays.now) }
{
    for replayed in replays {
        let line = line_of(alloc, script, replayed)?;
        lines.push(line)?;
    }
    Ok(())
}

// The line of a duty.
fn line_of(alloc: Global, script: &Script, replayed: &Replayed) -> Result<ReportLine, Memory>
    ensures { IfOk result (λ line. line
        ≡ reported_line (line_for script.now replayed.now.claim.label (told_outcome replayed.now.outcome))) }
{
    let label = replayed.claim.label;
    let outcome = outcome_of(alloc, script, label, &replayed.outcome)?;
    Ok(ReportLine::Duty(label, outcome))
}

// What the line of a duty with this label says.
fn outcome_of(
    alloc: Global,
    script: &Script,
    label: Label,
    outcome: &Outcome,
) -> Result<DutyOutcome, Memory>
    ensures { IfOk result (λ said. Duty label said
        ≡ reported_line (line_for script.now label (told_outcome outcome.now))) }
{
    match outcome {
        Outcome::Proved => Ok(DutyOutcome::Proved),
        Outcome::Suspended { goals, goal } => {
            let goal = copy(alloc, goal)?;
            Ok(DutyOutcome::Suspended(*goals, goal))
        }
        Outcome::Refused { place, code } => Ok(DutyOutcome::Refused(
            line_of_place(script, label, *place),
            *code,
        )),
    }
}

// The line of a script at which the duty with this label is refused.
fn line_of_place(script: &Script, label: Label, place: Place) -> u32
    ensures { result ≡ line_of_place script.now (block_of script.now label) (place_of place) }
{
    match place {
        Place::Preamble(number) => line_at(script.preamble.as_slice(), number),
        Place::Opening => line_of_block(script, label),
        Place::Command(number) => line_at(commands_for(script, label), number),
    }
}

// The labels of duties.
fn labels_of(alloc: Global, replays: &[Replayed]) -> Result<Sequence<Label>, Memory>
    ensures { IfOk result (λ labels. labels ≡ map (λ r. r.claim.label) replays.now) }
{
    let mut labels = Sequence::new(alloc);
    for replayed in replays {
        labels.push(replayed.claim.label)?;
    }
    Ok(labels)
}
