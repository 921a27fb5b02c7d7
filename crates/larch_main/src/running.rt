ghost use Rattle.std.specs.Prelude.{◌≡◌, ◌≢◌, ℕ, List, Option, Some, IfErr, IfOk, IfSome, OnOk, map, string_bytes};
ghost use Rattle.std.specs.Prelude.{true};
ghost use Rattle.larch_io.specs.Folder.{FileMap};
ghost use Rattle.std.specs.List.{list_all};
ghost use Rattle.larch_base.specs.FileName.{is_file_name};
ghost use Rattle.larch_io.specs.Faults.{Rose};
ghost use Rattle.larch_words.specs.Call.{call_of, is_certificate};
ghost use Rattle.larch_words.specs.declared.call.Call.TheVariants.{Generate as call_generate};
ghost use Rattle.larch_words.specs.declared.call.Call.TheVariants.{Migrate as call_migrate, OnFiles as call_on_files};
ghost use Rattle.larch_main_status.specs.Faults.{Counts, sink_failed};
ghost use Rattle.larch_main_files.specs.Questions.{Answered, IsCertified, NamesModel, TrimsCertificate};
ghost use Rattle.larch_main.specs.Generate.{Generates};
ghost use Rattle.larch_main.specs.Questions.{QuestionReports, Works};
ghost use Rattle.larch_main.specs.Running.{Answers, CallReports, Writes, CallTakes, KeepsFolder, KeepsSource};
ghost use Rattle.larch_main.specs.Running.{AnswerFaults, Shows, folder_failed, source_failed};
ghost use Rattle.larch_main_files.specs.Answer.{answer_of, made_of};
ghost use Rattle.larch_main_files.specs.Look.{GatherFaults};
ghost use Rattle.larch_main_files.specs.Migrate.{Migrated};
ghost use Rattle.larch_main_files.specs.Turns.{CallLooks, LookInTurn, looks_of};
ghost use Rattle.larch_main_status.specs.Faults.{HaltFaults};

use crate::derive::derive;
use crate::generate::generate;
use crate::laws::{what_is_trimmed_is_accepted, what_is_verified_is_derivable};
use crate::replay::replay;
use larch_base::{FileName, Steps};
use larch_io::{Folder, Sink, Source};
use larch_main_files::check::check;
use larch_main_files::completion::complete;
use larch_main_files::gather::GatherRefusal;
use larch_main_files::migrate::migrate;
use larch_main_files::model::model;
use larch_main_files::obligations::obligations;
use larch_main_files::trim::trim;
use larch_main_files::verify::verify;
use larch_main_files::{Answer, answer_to, tell};
use larch_main_session::run_session;
use larch_main_status::{Halt, Status, say_at_end};
use larch_words::{
    Call, EvidenceName, Generation, Question, calls_name_files, certificates_are_named,
    models_are_named, read_words,
};
use std::alloc::Global;
use std::sync::ledger::Ledger;

/// What is written where the words mean no command.
const USAGE: &[u8] = b"usage: larch COMMAND [WORD..] [--limit N] [--seed N] [--size N]\n";

/// Carries out the command that the words ask for, and answers how it ended. All output goes to the sink.
pub fn run<F: Folder, S: Source, K: Sink, L: Ledger>(
    alloc: Global,
    words: &[String],
    folder: &mut F,
    source: &mut S,
    sink: &mut K,
    steps: &mut Steps<L>,
) -> Status
    // What is written is defined by the words, the folder and the input, whole where nothing failed.
    ensures output { Writes (call_of (map string_bytes words.now)) (F.files folder.old)
        (S.left source.old) (S.left source.new) (K.held sink.old) (K.held sink.new) result }
    // A session that ends by itself has taken its input to the end or through `quit`.
    ensures input { CallTakes (call_of (map string_bytes words.now))
        (S.left source.old) (S.left source.new) (K.held sink.old) (K.held sink.new) result }
    // Where `verify` or `trim` ends well, the duty that it was asked for is derivable from its theory, and fails in no
    // model; where `derive` does, `verify` accepts what was written for the duty.
    ensures shown { Shows (call_of (map string_bytes words.now)) (F.files folder.old)
        (K.held sink.old) (K.held sink.new) result }
    // Each duty that a report calls proved is derivable from its own theory, and a step is counted at most for each
    // opening of a duty and each command that the reports replay.
    ensures reports { CallReports (call_of (map string_bytes words.now)) (F.files folder.old)
        (S.left source.old) (K.held sink.old) (K.held sink.new) steps.old steps.new }

    // A fault is answered exactly where its count rose.
    ensures source_faults { Counts (source_failed (call_of (map string_bytes words.now)) result)
        (S.faults source.old) (S.faults source.new) }
    ensures folder_faults { Counts (folder_failed (call_of (map string_bytes words.now)) result)
        (F.faults folder.old) (F.faults folder.new) }
    ensures sink_faults { Counts (sink_failed result) (K.faults sink.old) (K.faults sink.new) }

    // The files stay. A call that names none doesn't look at the folder, and one that is no session leaves the source.
    ensures files { F.files folder.new ≡ F.files folder.old }
    ensures folder { KeepsFolder (call_of (map string_bytes words.now)) folder.old folder.new }
    ensures untouched { KeepsSource (call_of (map string_bytes words.now)) source.old source.new }

    // The folder is looked at in the order of the words, a certificate or a model first, each time for a name that
    // comes for the first time; and only where all that was looked for before is there.
    ensures looks { CallLooks (call_of (map string_bytes words.now)) (F.files folder.old)
        (F.looks folder.old) (F.looks folder.new) }

    // Where no count rose and memory didn't run out, the defined output was written, whole, and the status is its own.
    ensures complete { (Rose (S.faults source.old) (S.faults source.new) → ⊥)
        → (Rose (F.faults folder.old) (F.faults folder.new) → ⊥)
        → (Rose (K.faults sink.old) (K.faults sink.new) → ⊥)
        → result ≢ Status.Memory
        → Answers (call_of (map string_bytes words.now)) (F.files folder.old)
        (S.left source.old) (S.left source.new) (K.held sink.old) (K.held sink.new) result }
{
    calls_name_files();
    certificates_are_named();
    models_are_named();
    what_is_verified_is_derivable();
    what_is_trimmed_is_accepted();
    let call = match read_words(alloc, words) {
        Ok(call) => call,
        Err(_) => return Status::Memory,
    };
    match &call {
        Call::Session(limit) => run_session(alloc, *limit, source, sink, steps),
        Call::Migrate(certificate) => run_migrate(alloc, certificate, folder, sink),
        Call::Generate(traits) => run_generate(alloc, *traits, sink, steps),
        Call::Nothing => say_at_end(sink, USAGE, Status::Words),
        Call::OnFiles(question, names) => {
            run_on_files(alloc, question, names.as_slice(), folder, sink, steps)
        }
    }
}

// Answers a question about the files of these names.
fn run_on_files<F: Folder, K: Sink, L: Ledger>(
    alloc: Global,
    question: &Question,
    names: &[FileName],
    folder: &mut F,
    sink: &mut K,
    steps: &mut Steps<L>,
) -> Status
    requires names { list_all is_file_name names.now ≡ true }
    requires certificate { IsCertified question.now }
    requires model { NamesModel question.now }
    requires trimmed { TrimsCertificate question.now }
    // The source, of which nothing is taken, may have left anything.
    ensures output { (left : Option (List ℕ)) → Writes (call_on_files question.now names.now) (F.files folder.old)
        left left (K.held sink.old) (K.held sink.new) result }
    ensures reports { QuestionReports question.now names.now (F.files folder.old)
        (K.held sink.old) (K.held sink.new) steps.old steps.new }
    ensures same { F.files folder.new ≡ F.files folder.old }
    ensures source_faults { (count : ℕ) → Counts (source_failed (call_on_files question.now names.now) result)
        count count }
    ensures folder_faults { Counts (folder_failed (call_on_files question.now names.now) result)
        (F.faults folder.old) (F.faults folder.new) }
    ensures sink_faults { Counts (sink_failed result) (K.faults sink.old) (K.faults sink.new) }
    ensures looks { CallLooks (call_on_files question.now names.now) (F.files folder.old)
        (F.looks folder.old) (F.looks folder.new) }
{
    let answered = answer(alloc, question, names, folder, steps);
    tell(sink, answered)
}

// What is answered to a question about the files of these names.
fn answer<F: Folder, L: Ledger>(
    alloc: Global,
    question: &Question,
    names: &[FileName],
    folder: &mut F,
    steps: &mut Steps<L>,
) -> Result<Answer, Halt>
    requires names { list_all is_file_name names.now ≡ true }
    requires certificate { IsCertified question.now }
    requires model { NamesModel question.now }
    requires trimmed { TrimsCertificate question.now }
    ensures answer { IfOk result (λ answer. Answered question.now names.now (F.files folder.old) answer) }
    ensures works { Works question.now names.now (F.files folder.old) steps.old steps.new (made_of result) }
    ensures same { F.files folder.new ≡ F.files folder.old }
    ensures fine { OnOk result (F.faults folder.new ≡ F.faults folder.old) }
    ensures faults { IfErr result (λ halt. HaltFaults halt (F.faults folder.old) (F.faults folder.new)) }
    ensures looks { LookInTurn (F.files folder.old) (looks_of question.now names.now)
        (F.looks folder.old) (F.looks folder.new) }
{
    let answered = answer_of(alloc, question, names, folder, steps);
    settle(alloc, answered)
}

// What was answered, or what is answered to a refusal.
fn settle(alloc: Global, answered: Result<Answer, GatherRefusal>) -> Result<Answer, Halt>
    ensures answer { IfOk result (λ answer. answer_of answered ≡ Some answer) }
    ensures fine { OnOk result ((before now : ℕ) → AnswerFaults answered before now → now ≡ before) }
    ensures halt { IfErr result (λ halt. (before now : ℕ)
        → AnswerFaults answered before now → HaltFaults halt before now) }
{
    match answered {
        Ok(answer) => Ok(answer),
        Err(refusal) => answer_to(alloc, refusal),
    }
}

// What comes of a question about the files of these names.
fn answer_of<F: Folder, L: Ledger>(
    alloc: Global,
    question: &Question,
    names: &[FileName],
    folder: &mut F,
    steps: &mut Steps<L>,
) -> Result<Answer, GatherRefusal>
    requires names { list_all is_file_name names.now ≡ true }
    requires certificate { IsCertified question.now }
    requires model { NamesModel question.now }
    requires trimmed { TrimsCertificate question.now }
    ensures answer { IfSome (answer_of result) (λ answer.
        Answered question.now names.now (F.files folder.old) answer) }
    ensures works { Works question.now names.now (F.files folder.old) steps.old steps.new (answer_of result) }
    ensures same { F.files folder.new ≡ F.files folder.old }
    ensures fine { OnOk result (F.faults folder.new ≡ F.faults folder.old) }
    ensures faults { IfErr result (λ refusal. GatherFaults refusal (F.faults folder.old) (F.faults folder.new)) }
    ensures looks { LookInTurn (F.files folder.old) (looks_of question.now names.now)
        (F.looks folder.old) (F.looks folder.new) }
{
    match question {
        Question::Check => check(alloc, names, folder),
        Question::Obligations => obligations(alloc, names, folder),
        Question::Replay(limit) => replay(alloc, *limit, names, folder, steps),
        Question::Derive(asked, limit) => derive(alloc, asked, *limit, names, folder, steps),
        Question::Verify(asked) => verify(alloc, asked, names, folder),
        Question::Model(tried) => model(alloc, tried, names, folder),
        Question::Trim(asked) => trim(alloc, asked, names, folder),
        Question::Complete(stem, limit) => complete(alloc, stem, *limit, names, folder),
    }
}

// Writes the certificate of this name in the second version.
fn run_migrate<F: Folder, K: Sink>(
    alloc: Global,
    certificate: &EvidenceName,
    folder: &mut F,
    sink: &mut K,
) -> Status
    requires { is_certificate certificate.now ≡ true }
    // The source, of which nothing is taken, may have left anything.
    ensures output { (left : Option (List ℕ)) → Writes (call_migrate certificate.now) (F.files folder.old)
        left left (K.held sink.old) (K.held sink.new) result }
    ensures same { F.files folder.new ≡ F.files folder.old }
    ensures source_faults { (count : ℕ) → Counts (source_failed (call_migrate certificate.now) result) count count }
    ensures folder_faults { Counts (folder_failed (call_migrate certificate.now) result)
        (F.faults folder.old) (F.faults folder.new) }
    ensures sink_faults { Counts (sink_failed result) (K.faults sink.old) (K.faults sink.new) }
    ensures looks { CallLooks (call_migrate certificate.now) (F.files folder.old)
        (F.looks folder.old) (F.looks folder.new) }
{
    let answered = migration(alloc, certificate, folder);
    tell(sink, answered)
}

// What is answered where the certificate of this name is wanted in the second version.
fn migration<F: Folder>(
    alloc: Global,
    certificate: &EvidenceName,
    folder: &mut F,
) -> Result<Answer, Halt>
    requires { is_certificate certificate.now ≡ true }
    ensures answer { IfOk result (λ answer. Migrated certificate.now (F.files folder.old) answer) }
    ensures same { F.files folder.new ≡ F.files folder.old }
    ensures fine { OnOk result (F.faults folder.new ≡ F.faults folder.old) }
    ensures faults { IfErr result (λ halt. HaltFaults halt (F.faults folder.old) (F.faults folder.new)) }
    ensures looks { CallLooks (call_migrate certificate.now) (F.files folder.old)
        (F.looks folder.old) (F.looks folder.new) }
{
    let answered = migrate(alloc, certificate, folder);
    settle(alloc, answered)
}

// Writes what is answered where a report on generated traits is wanted.
fn run_generate<K: Sink, L: Ledger>(
    alloc: Global,
    traits: Generation,
    sink: &mut K,
    steps: &mut Steps<L>,
) -> Status
    // Nothing is taken of the source, and the folder isn't looked at.
    ensures output { (told : Option FileMap) (left : Option (List ℕ)) → Writes (call_generate traits) told
        left left (K.held sink.old) (K.held sink.new) result }
    ensures reports { Generates traits (K.held sink.old) (K.held sink.new) steps.old steps.new }
    ensures sink_faults { Counts (sink_failed result) (K.faults sink.old) (K.faults sink.new) }
{
    match generate(alloc, traits, steps) {
        Ok(answer) => say_at_end(sink, answer.text.bytes(), answer.status),
        Err(_) => Status::Memory,
    }
}
