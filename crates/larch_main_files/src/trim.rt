//! What is left of a certificate for a duty.
ghost use Rattle.std.specs.Prelude.{◌≡◌, IfErr, IfOk, IfSome, OnOk, true};
ghost use Rattle.std.specs.List.{list_all};
ghost use Rattle.larch_base.specs.FileName.{is_file_name};
ghost use Rattle.larch_words.specs.Call.{is_certificate};
ghost use Rattle.larch_words.specs.declared.call.Question.TheVariants.{Trim as question_trim};
ghost use Rattle.larch_main_files.specs.Answer.{answer_of, said};
ghost use Rattle.larch_main_files.specs.Look.{GatherFaults};
ghost use Rattle.larch_main_files.specs.Questions.{Answered};
ghost use Rattle.larch_main_files.specs.Trim.{left_of, left_text, trimming_answer};
ghost use Rattle.larch_main_files.specs.Turns.{LookInTurn, looks_of};
ghost use Rattle.larch_main_files.specs.Verify.{duty_in, verdict_of};

use crate::answer::Answer;
use crate::gather::{Evidence, GatherRefusal, gather_evidence};
use crate::verify::{malformed_answer, verdict_of};
use larch_base::{FileName, Label, Memory, Name};
use larch_certificate::Certificate;
use larch_certificate_printer::print_second;
use larch_certificate_reader::{FormRefusal, read_either};
use larch_io::Folder;
use larch_main_status::Status;
use larch_traits::Files;
use larch_trim::trim as trim_certificate;
use larch_words::Verification;
use std::alloc::Global;

/// What is answered where this certificate of a duty of the files of these names is to be trimmed.
pub fn trim<F: Folder>(
    alloc: Global,
    asked: &Verification,
    names: &[FileName],
    folder: &mut F,
) -> Result<Answer, GatherRefusal>
    requires names { list_all is_file_name names.now ≡ true }
    requires other { is_certificate asked.now.certificate ≡ true }
    ensures answer { IfSome (answer_of result) (λ answer.
        Answered (question_trim asked.now) names.now (F.files folder.old) answer) }
    ensures same { F.files folder.new ≡ F.files folder.old }
    ensures fine { OnOk result (F.faults folder.new ≡ F.faults folder.old) }
    ensures faults { IfErr result (λ refusal. GatherFaults refusal (F.faults folder.old) (F.faults folder.new)) }
    ensures looks { LookInTurn (F.files folder.old) (looks_of (question_trim asked.now) names.now)
        (F.looks folder.old) (F.looks folder.new) }
{
    let evidence = gather_evidence(alloc, &asked.certificate, names, folder)?;
    Ok(trimming_answer(alloc, &asked.stem, asked.label, &evidence)?)
}

// What is left of a certificate of a duty among files, or why it isn't accepted. That it is malformed comes first.
fn trimming_answer(
    alloc: Global,
    stem: &Name,
    label: Label,
    evidence: &Evidence,
) -> Result<Answer, Memory>
    ensures { IfOk result (λ answer. answer ≡ trimming_answer stem.now label evidence.now) }
{
    match read_either(alloc, evidence.text.bytes()) {
        Ok(read) => left_of(alloc, &evidence.files, stem, label, &read.lines),
        Err(FormRefusal::Form(number)) => malformed_answer(alloc, number),
        Err(FormRefusal::Memory) => Err(Memory),
    }
}

// What is left of these lines for the duty of a trait with a label, or why they aren't accepted.
fn left_of(
    alloc: Global,
    files: &Files,
    stem: &Name,
    label: Label,
    lines: &Certificate,
) -> Result<Answer, Memory>
    ensures { IfOk result (λ answer. answer
        ≡ left_of (verdict_of (duty_in files.now stem.now label) lines.now) lines.now) }
{
    let verdict = verdict_of(alloc, files, stem, label, lines.as_slice())?;
    match verdict.status {
        Status::Good => left(alloc, lines),
        _ => Ok(verdict),
    }
}

// What is left of lines that are accepted.
fn left(alloc: Global, lines: &Certificate) -> Result<Answer, Memory>
    ensures { IfOk result (λ answer. answer ≡ said (left_text lines.now) Status.Good) }
{
    let needed = trim_certificate(alloc, lines)?;
    let text = print_second(alloc, &needed)?;
    Ok(Answer {
        text,
        status: Status::Good,
    })
}
