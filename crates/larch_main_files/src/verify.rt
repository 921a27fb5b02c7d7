//! The verdict on a certificate for a duty.
ghost use Rattle.std.specs.Prelude.{◌≡◌, List, None, Some, IfErr, IfOk, IfSome, OnOk, option_map, true};
ghost use Rattle.std.specs.List.{list_all};
ghost use Rattle.larch_base.specs.FileName.{is_file_name};
ghost use Rattle.larch_base.specs.Label.{label_text};
ghost use Rattle.larch_certificate.specs.declared.line.Line.{Line};
ghost use Rattle.larch_duties_meaning.specs.Duties.{all_duties};
ghost use Rattle.larch_words.specs.Call.{is_certificate};
ghost use Rattle.larch_words.specs.declared.call.Question.TheVariants.{Verify as question_verify};
ghost use Rattle.larch_main_files.specs.Answer.{answer_of, said};
ghost use Rattle.larch_main_files.specs.Questions.{Answered};
ghost use Rattle.larch_main_files.specs.Look.{GatherFaults};
ghost use Rattle.larch_main_files.specs.Turns.{LookInTurn, looks_of};
ghost use Rattle.larch_main_files.specs.Verify.{duty_in, duty_with, verdict_of};
ghost use Rattle.larch_main_files.specs.Verify.{malformed_answer, verdict_told, verification_answer};
ghost use Rattle.larch_verify.specs.Verdict.{refusal};

use crate::answer::{Answer, said};
use crate::gather::{Evidence, GatherRefusal, gather_evidence};
use larch_base::{FileName, Label, Memory, Name};
use larch_certificate::Line;
use larch_certificate_reader::{FormRefusal, read_either};
use larch_io::Folder;
use larch_main_status::Status;
use larch_session_meaning::from_duties::{Duties, duties_of, find_duty};
use larch_term::{Statement, Theory};
use larch_traits::from_flat::flatten;
use larch_traits::{Files, read_files};
use larch_traits_items::TraitRefusal;
use larch_verify::{Verdict, verify as check_certificate};
use larch_words::Verification;
use std::alloc::Global;

/// What is answered where this is to be verified of the files of these names.
pub fn verify<F: Folder>(
    alloc: Global,
    asked: &Verification,
    names: &[FileName],
    folder: &mut F,
) -> Result<Answer, GatherRefusal>
    requires names { list_all is_file_name names.now ≡ true }
    requires other { is_certificate asked.now.certificate ≡ true }
    ensures answer { IfSome (answer_of result) (λ answer.
        Answered (question_verify asked.now) names.now (F.files folder.old) answer) }
    ensures same { F.files folder.new ≡ F.files folder.old }
    ensures fine { OnOk result (F.faults folder.new ≡ F.faults folder.old) }
    ensures faults { IfErr result (λ refusal. GatherFaults refusal (F.faults folder.old) (F.faults folder.new)) }
    ensures looks { LookInTurn (F.files folder.old) (looks_of (question_verify asked.now) names.now)
        (F.looks folder.old) (F.looks folder.new) }
{
    let evidence = gather_evidence(alloc, &asked.certificate, names, folder)?;
    let answer = verification_answer(alloc, &asked.stem, asked.label, &evidence)?;
    Ok(answer)
}

// The verdict on a certificate and files. That the certificate is malformed comes first.
fn verification_answer(
    alloc: Global,
    stem: &Name,
    label: Label,
    evidence: &Evidence,
) -> Result<Answer, Memory>
    ensures { IfOk result (λ answer. answer ≡ verification_answer stem.now label evidence.now) }
{
    match read_either(alloc, evidence.text.bytes()) {
        Ok(read) => verdict_of(alloc, &evidence.files, stem, label, read.lines.as_slice()),
        Err(FormRefusal::Form(number)) => malformed_answer(alloc, number),
        Err(FormRefusal::Memory) => Err(Memory),
    }
}

/// The verdict on the lines of a certificate, for the duty of a trait with a label.
pub(crate) fn verdict_of(
    alloc: Global,
    files: &Files,
    stem: &Name,
    label: Label,
    lines: &[Line],
) -> Result<Answer, Memory>
    ensures { IfOk result (λ answer. answer ≡ verdict_of (duty_in files.now stem.now label) lines.now) }
{
    let sources = read_files(alloc, files)?;
    let flat_traits = flatten(alloc, &sources)?;
    let Some(number) = sources.number_of(stem) else {
        return no_duty(alloc);
    };
    match duties_of(alloc, &sources, &flat_traits, number) {
        Ok(duties) => judged_among(alloc, &duties, label, lines),
        Err(TraitRefusal::Wrong(_, _)) => no_duty(alloc),
        Err(TraitRefusal::Memory) => Err(Memory),
    }
}

// The same for the duty with a label among these.
fn judged_among(
    alloc: Global,
    duties: &Duties<'_>,
    label: Label,
    lines: &[Line],
) -> Result<Answer, Memory>
    ensures { IfOk result (λ answer. answer
        ≡ verdict_of (duty_with (label_text label) (all_duties duties.now)) lines.now) }
{
    match duty_labelled(alloc, duties, label)? {
        Some((theory, statement)) => {
            let verdict = check_certificate(alloc, &theory, &statement, lines)?;
            verdict_told(alloc, verdict)
        }
        None => no_duty(alloc),
    }
}

// The theory and the statement of the duty with a label among these.
fn duty_labelled(
    alloc: Global,
    duties: &Duties<'_>,
    label: Label,
) -> Result<Option<(Theory, Statement)>, Memory>
    ensures { IfOk result (λ found. found ≡ option_map (λ d. (d.theory, d.statement))
        (duty_with (label_text label) (all_duties duties.now))) }
{
    let text = format!(in alloc; "{label}")?;
    let found = find_duty(alloc, duties, text.as_bytes())?;
    Ok(found)
}

// There is no such duty.
fn no_duty(alloc: Global) -> Result<Answer, Memory>
    ensures { (lines : List Line) → IfOk result (λ answer. answer ≡ verdict_of None lines) }
{
    said(alloc, b"no duty\n", Status::Remains)
}

// A verdict as it is told.
fn verdict_told(alloc: Global, verdict: Verdict) -> Result<Answer, Memory>
    ensures { IfOk result (λ answer. answer ≡ verdict_told (refusal verdict)) }
{
    match verdict {
        Verdict::Accepted => said(alloc, b"accepted\n", Status::Good),
        Verdict::Refused(number) => refusal_answer(alloc, number),
    }
}

// A certificate is refused with this number.
fn refusal_answer(alloc: Global, number: u64) -> Result<Answer, Memory>
    ensures { IfOk result (λ answer. answer ≡ verdict_told (Some number)) }
{
    let text = format!(in alloc; "refused {number}\n")?;
    said(alloc, text.as_bytes(), Status::Remains)
}

/// A text is no certificate from this line on.
pub(crate) fn malformed_answer(alloc: Global, number: u64) -> Result<Answer, Memory>
    ensures { IfOk result (λ answer. answer ≡ malformed_answer number) }
{
    let text = format!(in alloc; "malformed at line {number}\n")?;
    said(alloc, text.as_bytes(), Status::Malformed)
}
