ghost use Rattle.std.specs.Prelude.{◌≡◌, ◌≤◌, ◌+◌, [], IfErr, IfOk, IfSome, OnOk, true};
ghost use Rattle.std.specs.List.{list_all};
ghost use Rattle.larch_base.specs.FileName.{is_file_name};
ghost use Rattle.larch_prove_meaning.specs.Redo.{redo};
ghost use Rattle.larch_main_files.specs.SessionMeaningRedone.{replayed_on};
ghost use Rattle.larch_words.specs.declared.call.Question.TheVariants.{Derive as question_derive};
ghost use Rattle.larch_main_files.specs.Answer.{answer_of};
ghost use Rattle.larch_main_files.specs.Derive.{MayDerive};
ghost use Rattle.larch_main_files.specs.Look.{GatherFaults};
ghost use Rattle.larch_main_files.specs.Questions.{Answered};
ghost use Rattle.larch_main_files.specs.Turns.{LookInTurn, looks_of};
ghost use Rattle.larch_main.specs.Derive.{Worked};

use larch_base::{FileName, Memory, Steps};
use larch_io::Folder;
use larch_main_files::Answer;
use larch_main_files::derivation::derivation_answer;
use larch_main_files::gather::{GatherRefusal, gather};
use larch_main_session::from_session::Session;
use larch_main_status::from_traits::Files;
use larch_words::DutyName;
use std::alloc::Global;
use std::sync::ledger::Ledger;

/// What is answered where a derivation of a duty of the files of these names is wanted, each duty beginning with this
/// rewriting limit.
pub fn derive<F: Folder, L: Ledger>(
    alloc: Global,
    asked: &DutyName,
    limit: u32,
    names: &[FileName],
    folder: &mut F,
    steps: &mut Steps<L>,
) -> Result<Answer, GatherRefusal>
    requires { list_all is_file_name names.now ≡ true }
    ensures answer { IfSome (answer_of result) (λ answer.
        Answered (question_derive asked.now limit) names.now (F.files folder.old) answer) }
    ensures works { Worked limit names.now (F.files folder.old) steps.old steps.new }
    ensures same { F.files folder.new ≡ F.files folder.old }
    ensures fine { OnOk result (F.faults folder.new ≡ F.faults folder.old) }
    ensures faults { IfErr result (λ refusal. GatherFaults refusal (F.faults folder.old) (F.faults folder.new)) }
    ensures looks { LookInTurn (F.files folder.old) (looks_of (question_derive asked.now limit) names.now)
        (F.looks folder.old) (F.looks folder.new) }
{
    let files = gather(alloc, names, folder)?;
    let answer = derivation(alloc, asked, limit, files, steps)?;
    Ok(answer)
}

// What is derived of a duty of these files, as it is answered.
fn derivation<L: Ledger>(
    alloc: Global,
    asked: &DutyName,
    limit: u32,
    files: Files,
    steps: &mut Steps<L>,
) -> Result<Answer, Memory>
    ensures answer { IfOk result (λ answer. MayDerive limit asked.now files answer.text answer.status) }
    ensures least { steps.old ≤ steps.new }
    ensures most { steps.new ≤ steps.old + redo [] (replayed_on limit files) }
{
    let mut session = Session::with_files(alloc, limit, files);
    match session.derive(&asked.stem, asked.label, steps) {
        Ok(derived) => derivation_answer(alloc, &derived),
        Err(memory) => Err(memory),
    }
}
