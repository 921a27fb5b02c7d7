//! What is told of the completion of a trait's theory.
ghost use Rattle.std.specs.Prelude.{◌≡◌, IfErr, IfOk, IfSome, Ok, OnOk, true};
ghost use Rattle.std.specs.List.{list_all};
ghost use Rattle.larch_base.specs.FileName.{is_file_name};
ghost use Rattle.larch_derive.specs.Words.{IsWordedTheory};
ghost use Rattle.larch_term.specs.Statement.{IsWellSortedTheory};
ghost use Rattle.larch_words.specs.declared.call.Question.TheVariants.{Complete as question_complete};
ghost use Rattle.larch_main_files.specs.Answer.{answer_of};
ghost use Rattle.larch_main_files.specs.Completion.{completed_over, completion_answer};
ghost use Rattle.larch_main_files.specs.Look.{GatherFaults};
ghost use Rattle.larch_main_files.specs.Questions.{Answered};
ghost use Rattle.larch_main_files.specs.Turns.{LookInTurn, looks_of};

use crate::answer::{Answer, good_or_remains};
use crate::gather::{GatherRefusal, gather};
use crate::model::no_trait;
use crate::theory::trait_theory;
use larch_base::{FileName, Memory, Name};
use larch_complete_answer::{Told, tell_completion};
use larch_io::Folder;
use larch_term::Theory;
use larch_traits::from_flat::flatten;
use larch_traits::{Files, read_files};
use larch_traits_items::TraitRefusal;
use std::alloc::Global;

/// What is answered where rules are wanted that decide the equations of a trait among the files of these names, with a
/// rewriting limit.
pub fn complete<F: Folder>(
    alloc: Global,
    stem: &Name,
    limit: u32,
    names: &[FileName],
    folder: &mut F,
) -> Result<Answer, GatherRefusal>
    requires { list_all is_file_name names.now ≡ true }
    ensures answer { IfSome (answer_of result) (λ answer.
        Answered (question_complete stem.now limit) names.now (F.files folder.old) answer) }
    ensures same { F.files folder.new ≡ F.files folder.old }
    ensures fine { OnOk result (F.faults folder.new ≡ F.faults folder.old) }
    ensures faults { IfErr result (λ refusal. GatherFaults refusal (F.faults folder.old) (F.faults folder.new)) }
    ensures looks { LookInTurn (F.files folder.old) (looks_of (question_complete stem.now limit) names.now)
        (F.looks folder.old) (F.looks folder.new) }
{
    let files = gather(alloc, names, folder)?;
    let answer = completion_answer(alloc, stem, limit, &files)?;
    Ok(answer)
}

// What is told of the completion of a trait's theory. That there is no such trait comes first.
fn completion_answer(
    alloc: Global,
    stem: &Name,
    limit: u32,
    files: &Files,
) -> Result<Answer, Memory>
    ensures { IfOk result (λ answer. answer ≡ completion_answer stem.now limit files.now) }
{
    let sources = read_files(alloc, files)?;
    let flat_traits = flatten(alloc, &sources)?;
    let Some(number) = sources.number_of(stem) else {
        return no_trait(alloc);
    };
    match trait_theory(alloc, &sources, &flat_traits, number) {
        Ok(theory) => completed_over(alloc, &theory, limit),
        Err(TraitRefusal::Wrong(_, _)) => no_trait(alloc),
        Err(TraitRefusal::Memory) => Err(Memory),
    }
}

// What is told of the completion of a theory.
fn completed_over(alloc: Global, theory: &Theory, limit: u32) -> Result<Answer, Memory>
    requires sorted { IsWellSortedTheory theory.now }
    requires worded { IsWordedTheory theory.now }
    ensures { IfOk result (λ answer. answer ≡ completed_over limit (Ok theory.now)) }
{
    let Told { text, complete } = tell_completion(alloc, theory, limit)?;
    let status = good_or_remains(complete);
    Ok(Answer { text, status })
}
