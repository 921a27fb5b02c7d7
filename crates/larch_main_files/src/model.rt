//! What is found of a text as a model of a trait.
ghost use Rattle.std.specs.Prelude.{◌≡◌, ◌≤◌, IfErr, IfOk, IfSome, Ok, OnOk, length, true};
ghost use Rattle.std.specs.List.{list_all};
ghost use Rattle.larch_base.specs.FileName.{is_file_name};
ghost use Rattle.larch_base.specs.declared.limits.TheConstants.{MAX_DUTIES};
ghost use Rattle.larch_words.specs.Call.{is_model};
ghost use Rattle.larch_words.specs.declared.call.Question.TheVariants.{Model as question_model};
ghost use Rattle.larch_main_files.specs.Answer.{answer_of};
ghost use Rattle.larch_main_files.specs.Look.{GatherFaults};
ghost use Rattle.larch_main_files.specs.Model.{ending_status, finding_told, no_trait, trial_answer, tried_over};
ghost use Rattle.larch_main_files.specs.Questions.{Answered};
ghost use Rattle.larch_main_files.specs.Turns.{LookInTurn, looks_of};

use crate::answer::{Answer, said};
use crate::gather::{Evidence, GatherRefusal, gather_evidence};
use larch_base::{FileName, Memory, Name};
use larch_io::Folder;
use larch_main_status::Status;
use larch_models_answer::{Ending, Finding, judge_model};
use larch_session_meaning::from_duties::{OwnClaims, own_claims};
use larch_traits::from_flat::flatten;
use larch_traits::read_files;
use larch_traits_items::TraitRefusal;
use larch_words::Trial;
use std::alloc::Global;

/// What is answered where this is to be tried as a model of a trait among the files of these names.
pub fn model<F: Folder>(
    alloc: Global,
    tried: &Trial,
    names: &[FileName],
    folder: &mut F,
) -> Result<Answer, GatherRefusal>
    requires names { list_all is_file_name names.now ≡ true }
    requires other { is_model tried.now.model ≡ true }
    ensures answer { IfSome (answer_of result) (λ answer.
        Answered (question_model tried.now) names.now (F.files folder.old) answer) }
    ensures same { F.files folder.new ≡ F.files folder.old }
    ensures fine { OnOk result (F.faults folder.new ≡ F.faults folder.old) }
    ensures faults { IfErr result (λ refusal. GatherFaults refusal (F.faults folder.old) (F.faults folder.new)) }
    ensures looks { LookInTurn (F.files folder.old) (looks_of (question_model tried.now) names.now)
        (F.looks folder.old) (F.looks folder.new) }
{
    let evidence = gather_evidence(alloc, &tried.model, names, folder)?;
    Ok(trial_answer(alloc, &tried.stem, &evidence)?)
}

// What is found of a text among files. That there is no such trait comes first.
fn trial_answer(alloc: Global, stem: &Name, evidence: &Evidence) -> Result<Answer, Memory>
    ensures { IfOk result (λ answer. answer ≡ trial_answer stem.now evidence.now) }
{
    let sources = read_files(alloc, &evidence.files)?;
    let flat_traits = flatten(alloc, &sources)?;
    let Some(number) = sources.number_of(stem) else {
        return no_trait(alloc);
    };
    match own_claims(alloc, &sources, &flat_traits, number) {
        Ok(own) => tried_over(alloc, &own, evidence.text.bytes()),
        Err(TraitRefusal::Wrong(_, _)) => no_trait(alloc),
        Err(TraitRefusal::Memory) => Err(Memory),
    }
}

// What is found of a text as a model of what a trait claims.
fn tried_over(alloc: Global, own: &OwnClaims, text: &[u8]) -> Result<Answer, Memory>
    requires assumed { length own.now.assumed ≤ MAX_DUTIES }
    requires implied { length own.now.implied ≤ MAX_DUTIES }
    ensures { IfOk result (λ answer. answer ≡ tried_over text.now (Ok own.now)) }
{
    let assumed = own.assumed.as_slice();
    let implied = own.implied.as_slice();
    let finding = judge_model(alloc, &own.theory, assumed, implied, text)?;
    Ok(finding_told(finding))
}

// What is found, as it is told.
fn finding_told(finding: Finding) -> Answer
    ensures { result ≡ finding_told finding }
{
    let Finding { text, ending } = finding;
    Answer {
        text,
        status: ending_status(ending),
    }
}

// How what is found ends, as a status.
fn ending_status(ending: Ending) -> Status
    ensures { result ≡ ending_status ending }
{
    match ending {
        Ending::Holds => Status::Good,
        Ending::Fails => Status::Remains,
        Ending::Malformed => Status::Malformed,
        Ending::TooLarge => Status::Size,
    }
}

/// There is no such trait, or something is wrong with it.
pub(crate) fn no_trait(alloc: Global) -> Result<Answer, Memory>
    ensures { IfOk result (λ answer. answer ≡ no_trait) }
{
    said(alloc, b"no trait\n", Status::Remains)
}
