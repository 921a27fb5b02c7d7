ghost use Rattle.std.specs.Prelude.{◌≡◌, ◌++◌, IfOk, OnOk, codes, decimal};
ghost use Rattle.larch_base.specs.Label.{label_text};
ghost use Rattle.larch_print.specs.Print.{printing_of};
ghost use Rattle.larch_report.specs.Counts.{counts_of};
ghost use Rattle.larch_report.specs.Text.{fault_text, line_text, outcome_text, report_text, script_text, total_text};

use crate::counts::{Counts, counts_of};
use crate::line::{DutyOutcome, ReportLine};
use larch_base::{Bytes, Code, Fault, Label, Memory};
use larch_print::print_term;
use larch_term::Term;
use std::alloc::Global;

/// A report of these lines as it is written.
pub fn report_text(alloc: Global, lines: &[ReportLine]) -> Result<Bytes, Memory>
    ensures { IfOk result (λ text. text ≡ report_text lines.now) }
{
    let mut text = Bytes::new(alloc);
    for line in lines {
        append_line(alloc, &mut text, line)?;
    }
    append_end(alloc, &mut text, lines)?;
    Ok(text)
}

/// Puts a line at the end.
pub fn append_line(alloc: Global, text: &mut Bytes, line: &ReportLine) -> Result<(), Memory>
    ensures { OnOk result (text.new ≡ text.old ++ line_text line.now) }
{
    match line {
        ReportLine::Right(stem) => append_named(text, b"trait ", stem.bytes(), b"\n"),
        ReportLine::Wrong(stem, fault) => {
            append_named(text, b"trait ", stem.bytes(), b"")?;
            append_fault(alloc, text, *fault)
        }
        ReportLine::Duty(label, outcome) => append_duty(alloc, text, *label, outcome),
        ReportLine::Script(line, code) => append_script(alloc, text, *line, *code),
        ReportLine::Stray(stem) => append_named(
            text,
            b"script ",
            stem.bytes(),
            b" without trait\n",
        ),
    }
}

// Puts a name with what stands before and behind it at the end.
fn append_named(text: &mut Bytes, before: &[u8], name: &[u8], behind: &[u8]) -> Result<(), Memory>
    ensures { OnOk result (text.new ≡ text.old ++ (before.now ++ (name.now ++ behind.now))) }
{
    text.append(before)?;
    text.append(name)?;
    text.append(behind)
}

// Puts the rest of the line of a trait with a fault at the end.
fn append_fault(alloc: Global, text: &mut Bytes, fault: Fault) -> Result<(), Memory>
    ensures { OnOk result (text.new ≡ text.old ++ fault_text fault) }
{
    let Fault { pos, code } = fault;
    let said = format!(in alloc; " error {pos} {code}\n")?;
    text.append(said.as_bytes())
}

// Puts the line of a duty at the end.
fn append_duty(
    alloc: Global,
    text: &mut Bytes,
    label: Label,
    outcome: &DutyOutcome,
) -> Result<(), Memory>
    ensures { OnOk result (text.new ≡ text.old ++ line_text (ReportLine.Duty label outcome.now)) }
{
    append_label(alloc, text, label)?;
    append_outcome(alloc, text, outcome)
}

fn append_label(alloc: Global, text: &mut Bytes, label: Label) -> Result<(), Memory>
    ensures { OnOk result (text.new ≡ text.old ++ label_text label) }
{
    let said = format!(in alloc; "{label}")?;
    text.append(said.as_bytes())
}

// Puts the rest of the line of a duty at the end.
fn append_outcome(alloc: Global, text: &mut Bytes, outcome: &DutyOutcome) -> Result<(), Memory>
    ensures { OnOk result (text.new ≡ text.old ++ outcome_text outcome.now) }
{
    match outcome {
        DutyOutcome::Proved => text.append(b" proved\n"),
        DutyOutcome::Suspended(goals, goal) => append_goal(alloc, text, *goals, goal),
        DutyOutcome::Refused(line, code) => append_refusal(alloc, text, *line, *code),
    }
}

// Puts how many goals are open, and the current one, at the end.
fn append_goal(alloc: Global, text: &mut Bytes, goals: u32, goal: &Term) -> Result<(), Memory>
    ensures { OnOk result (text.new ≡ text.old ++ outcome_text (DutyOutcome.Suspended goals goal.now)) }
{
    append_count(alloc, text, goals)?;
    append_term(alloc, text, goal)?;
    text.append(b"\n")
}

fn append_count(alloc: Global, text: &mut Bytes, goals: u32) -> Result<(), Memory>
    ensures { OnOk result (text.new ≡ text.old ++ (codes " suspended goals " ++ decimal goals ++ codes ": ")) }
{
    let said = format!(in alloc; " suspended goals {goals}: ")?;
    text.append(said.as_bytes())
}

fn append_term(alloc: Global, text: &mut Bytes, term: &Term) -> Result<(), Memory>
    ensures { OnOk result (text.new ≡ text.old ++ printing_of term.now) }
{
    let printed = print_term(alloc, term)?;
    text.append(printed.bytes())
}

// Puts at which line a script is refused, and why, at the end.
fn append_refusal(alloc: Global, text: &mut Bytes, line: u32, code: Code) -> Result<(), Memory>
    ensures { OnOk result (text.new ≡ text.old ++ outcome_text (DutyOutcome.Refused line code)) }
{
    let said = format!(in alloc; " refused {line} {code}\n")?;
    text.append(said.as_bytes())
}

// Puts the line of a block that isn't replayed at the end.
fn append_script(alloc: Global, text: &mut Bytes, line: u32, code: Code) -> Result<(), Memory>
    ensures { OnOk result (text.new ≡ text.old ++ script_text line code) }
{
    let said = format!(in alloc; "script {line} {code}\n")?;
    text.append(said.as_bytes())
}

// Puts what stands behind the lines at the end: the totals, and `end`.
fn append_end(alloc: Global, text: &mut Bytes, lines: &[ReportLine]) -> Result<(), Memory>
    ensures { OnOk result (text.new ≡ text.old ++ (total_text (counts_of lines.now) ++ codes "end\n")) }
{
    append_total(alloc, text, counts_of(lines))?;
    text.append(b"end\n")
}

// Puts the line of the totals at the end.
fn append_total(alloc: Global, text: &mut Bytes, counts: Counts) -> Result<(), Memory>
    ensures { OnOk result (text.new ≡ text.old ++ total_text counts) }
{
    let Counts {
        traits,
        errors,
        proved,
        suspended,
        refused,
    } = counts;
    let said = format!(in alloc;
        "total {traits} traits, {errors} errors, {proved} proved, {suspended} suspended, {refused} refused\n"
    )?;
    text.append(said.as_bytes())
}
