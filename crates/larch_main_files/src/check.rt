//! What is wrong with files.
ghost use Rattle.std.specs.Prelude.{◌≡◌, IfErr, IfOk, IfSome, OnOk, true};
ghost use Rattle.std.specs.List.{list_all};
ghost use Rattle.larch_base.specs.FileName.{is_file_name};
ghost use Rattle.larch_words.specs.declared.call.Question.TheVariants.{Check as question_check};
ghost use Rattle.larch_main_files.specs.Answer.{answer_of};
ghost use Rattle.larch_main_files.specs.Check.{check_answer};
ghost use Rattle.larch_main_files.specs.Questions.{Answered};
ghost use Rattle.larch_main_files.specs.Look.{GatherFaults};
ghost use Rattle.larch_main_files.specs.Turns.{LookInTurn, looks_of};

use crate::answer::{Answer, report_answer};
use crate::gather::{GatherRefusal, gather};
use crate::report::check_on;
use larch_base::{FileName, Memory};
use larch_io::Folder;
use larch_traits::Files;
use std::alloc::Global;

/// What is answered to a check of the files of these names.
pub fn check<F: Folder>(
    alloc: Global,
    names: &[FileName],
    folder: &mut F,
) -> Result<Answer, GatherRefusal>
    requires { list_all is_file_name names.now ≡ true }
    ensures answer { IfSome (answer_of result) (λ answer.
        Answered question_check names.now (F.files folder.old) answer) }
    ensures same { F.files folder.new ≡ F.files folder.old }
    ensures fine { OnOk result (F.faults folder.new ≡ F.faults folder.old) }
    ensures faults { IfErr result (λ refusal. GatherFaults refusal (F.faults folder.old) (F.faults folder.new)) }
    ensures looks { LookInTurn (F.files folder.old) (looks_of question_check names.now)
        (F.looks folder.old) (F.looks folder.new) }
{
    let files = gather(alloc, names, folder)?;
    let answer = report(alloc, &files)?;
    Ok(answer)
}

// The report on these files.
fn report(alloc: Global, files: &Files) -> Result<Answer, Memory>
    ensures { IfOk result (λ answer. answer ≡ check_answer files.now) }
{
    let lines = check_on(alloc, files)?;
    report_answer(alloc, lines.as_slice())
}
