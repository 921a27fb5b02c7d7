ghost use Rattle.std.specs.Prelude.{◌≡◌, ◌≢◌, ◌≤◌, ◌+◌, ℕ, [], length, false, true, IfOk, IfErr, OnOk};
ghost use Rattle.larch_base.specs.declared.limits.TheConstants.{MAX_FILE_BYTES, MAX_SOURCE_BYTES};
ghost use Rattle.larch_main_session.specs.Command.{command_of};
ghost use Rattle.larch_main_session.specs.Progress.{state_of, at_line, at_command, at_bytes, Moves, Advances};
ghost use Rattle.larch_main_status.specs.Faults.{HaltFaults};
ghost use Rattle.larch_main_session.specs.Progress.{Follows, IsAnswer, IsStop, Never, PutsIn, Refuses};
ghost use Rattle.larch_main_session.specs.Replies.{reported, derived};
ghost use Rattle.larch_prove_meaning.specs.Redo.{redo};
ghost use Rattle.larch_report.specs.Counts.{counts_of, is_good};
ghost use Rattle.larch_session.specs.SessionKeptKept.{limit_in};
ghost use Rattle.larch_session.specs.SessionSourcesJustified.{IsJustifiedReport};
ghost use Rattle.larch_session_derive_meaning.specs.SessionMeaningFiles.{report_of};
ghost use Rattle.larch_session_derive_meaning.specs.SessionMeaningRedone.{replayed_on};
ghost use Rattle.larch_main_session.specs.Session.{start, status_of, malformed_text, large_text};

use crate::command::{Command, command_of};
use larch_base::limits::MAX_FILE_BYTES;
use larch_base::{Bytes, FileName, Label, Memory, Name, Steps};
use larch_io::{Reader, Source, TakeRefusal, take_exact, take_line};
use larch_main_status::{Halt, Status};
use larch_report::{counts_of, is_good, report_text};
use larch_session::{PutRefusal, Session};
use larch_session_derive::derivation_reply;
use std::alloc::Global;
use std::sync::ledger::Ledger;

/// A session between two commands: its reader, its files, and whether in the last report nothing was wrong and all was
/// proved.
#[derive(Drop)]
pub struct Progress {
    pub reader: Reader,
    pub session: Session,
    pub good: bool,
}

/// One step of a session.
#[derive(Drop)]
pub enum Move {
    /// A whole command was carried out; this is its reply.
    Goes(Bytes),
    /// The session ends with this text and status.
    Stops(Bytes, Status),
}

impl Progress {
    /// A session without files, bytes and reports, whose duties begin with this rewriting limit.
    pub fn new(alloc: Global, limit: u32) -> Result<Progress, Memory>
        ensures start { IfOk result (λ progress. state_of progress ≡ start limit) }
        ensures nothing { IfOk result (λ progress. progress.reader.kept ≡ []) }
        ensures still_open { IfOk result (λ progress. progress.reader.ended ≡ false) }
    {
        let reader = Reader::new(alloc)?;
        Ok(Progress {
            reader,
            session: Session::new(alloc, limit),
            good: true,
        })
    }
}

// Ends the session where it isn't refused.
fn end_session(alloc: Global, progress: &Progress) -> Move
    ensures { result ≡ Move.Stops [] (status_of (state_of progress.now)) }
{
    let status = if progress.good {
        Status::Good
    } else {
        Status::Remains
    };
    Move::Stops(Bytes::new(alloc), status)
}

// Refuses what isn't in the grammar; the line at fault stands behind so many bytes.
fn refuse_malformed(alloc: Global, before: u64) -> Result<Move, Halt>
    ensures { IsStop (malformed_text before) Status.Malformed result }
{
    let mut text = Bytes::new(alloc);
    let said = format!(in alloc; "malformed at byte {before}\n")?;
    text.append(said.as_bytes())?;
    Ok(Move::Stops(text, Status::Malformed))
}

// Refuses what passes a limit.
fn too_large(alloc: Global) -> Result<Move, Halt>
    ensures { IsStop large_text Status.Size result }
{
    let mut text = Bytes::new(alloc);
    text.append(b"too large\n")?;
    Ok(Move::Stops(text, Status::Size))
}

/// Makes the next step: takes a line, and carries its command out.
pub fn advance<S: Source, L: Ledger>(
    alloc: Global,
    progress: &mut Progress,
    source: &mut S,
    steps: &mut Steps<L>,
) -> Result<Move, Halt>
    ensures moves { Moves (at_line (state_of progress.old)) progress.old progress.new
        (S.left source.old) (S.left source.new) steps.old steps.new result }
    ensures further { IfOk result (λ move. Advances progress.old progress.new move) }
    ensures limit { progress.new.reader.count ≤ MAX_SOURCE_BYTES }
    ensures fine { OnOk result (S.faults source.new ≡ S.faults source.old) }
    ensures faults { IfErr result (λ halt. HaltFaults halt (S.faults source.old) (S.faults source.new)) }
{
    let before = progress.reader.taken();
    match take_line(alloc, &mut progress.reader, source) {
        Ok(line) => carry_out(alloc, progress, source, steps, before, line.bytes()),
        Err(refusal) => without_line(alloc, progress, before, refusal),
    }
}

// What a session does where it could take no line.
fn without_line(
    alloc: Global,
    progress: &Progress,
    before: u64,
    refusal: TakeRefusal,
) -> Result<Move, Halt>
    ensures { Refuses refusal (IsStop [] (status_of (state_of progress.now)))
        (IsStop (malformed_text before) Status.Malformed) result }
{
    match refusal {
        TakeRefusal::ReadFault => Err(Halt::ReadFault),
        TakeRefusal::End => Ok(end_session(alloc, progress)),
        TakeRefusal::TooLong => refuse_malformed(alloc, before),
        TakeRefusal::Full => too_large(alloc),
        TakeRefusal::Memory => Err(Halt::Memory),
    }
}

// Carries out the command of a line that was taken, and that stands behind so many bytes.
fn carry_out<S: Source, L: Ledger>(
    alloc: Global,
    progress: &mut Progress,
    source: &mut S,
    steps: &mut Steps<L>,
    before: u64,
    line: &[u8],
) -> Result<Move, Halt>
    ensures moves { Moves (at_command before (state_of progress.old) (command_of line.now)) progress.old progress.new
        (S.left source.old) (S.left source.new) steps.old steps.new result }
    ensures further { IfOk result (λ move. Follows progress.old progress.new move) }
    ensures limit { progress.old.reader.count ≤ MAX_SOURCE_BYTES → progress.new.reader.count ≤ MAX_SOURCE_BYTES }
    ensures fine { OnOk result (S.faults source.new ≡ S.faults source.old) }
    ensures faults { IfErr result (λ halt. HaltFaults halt (S.faults source.old) (S.faults source.new)) }
{
    match command_of(alloc, line)? {
        None => refuse_malformed(alloc, before),
        Some(Command::Skip) => Ok(Move::Goes(Bytes::new(alloc))),
        Some(Command::Report) => answer_report(alloc, progress, steps),
        Some(Command::Derive(stem, label)) => answer_derive(alloc, progress, steps, &stem, label),
        Some(Command::Quit) => Ok(end_session(alloc, progress)),
        Some(Command::Drop(name)) => {
            progress.session.drop_file(&name);
            Ok(Move::Goes(Bytes::new(alloc)))
        }
        Some(Command::Put(name, count)) => {
            if MAX_FILE_BYTES < count {
                too_large(alloc)
            } else {
                put(alloc, progress, source, before, name, count)
            }
        }
    }
}

// Answers `report`.
fn answer_report<L: Ledger>(
    alloc: Global,
    progress: &mut Progress,
    steps: &mut Steps<L>,
) -> Result<Move, Halt>
    ensures reply { IfOk result (IsAnswer (reported (limit_in progress.old.session.base) progress.old.session.files)) }
    ensures further { IfOk result (λ move. Follows progress.old progress.new move) }
    ensures good { OnOk result (progress.new.good
        ≡ is_good (counts_of (report_of (limit_in progress.old.session.base) progress.old.session.files))) }
    ensures proved { OnOk result (IsJustifiedReport (limit_in progress.old.session.base) progress.old.session.files) }
    ensures memory { IfErr result (λ halt. halt ≡ Halt.Memory) }
    ensures reader { progress.new.reader ≡ progress.old.reader }
    ensures files { progress.new.session.files ≡ progress.old.session.files }
    ensures limit { limit_in progress.new.session.base ≡ limit_in progress.old.session.base }
    ensures least { steps.old ≤ steps.new }
    ensures most { steps.new
        ≤ steps.old + redo [] (replayed_on (limit_in progress.old.session.base) progress.old.session.files) }
{
    let lines = progress.session.report(steps)?;
    let text = report_text(alloc, lines.as_slice())?;
    progress.good = is_good(counts_of(lines.as_slice()));
    Ok(Move::Goes(text))
}

// Answers `derive`.
fn answer_derive<L: Ledger>(
    alloc: Global,
    progress: &mut Progress,
    steps: &mut Steps<L>,
    stem: &Name,
    label: Label,
) -> Result<Move, Halt>
    ensures reply { IfOk result (IsAnswer (derived (limit_in progress.old.session.base) progress.old.session.files
        stem.now label)) }
    ensures further { IfOk result (λ move. Follows progress.old progress.new move) }
    ensures good { progress.new.good ≡ progress.old.good }
    ensures memory { IfErr result (λ halt. halt ≡ Halt.Memory) }
    ensures reader { progress.new.reader ≡ progress.old.reader }
    ensures files { progress.new.session.files ≡ progress.old.session.files }
    ensures limit { limit_in progress.new.session.base ≡ limit_in progress.old.session.base }
    ensures least { steps.old ≤ steps.new }
    ensures most { steps.new
        ≤ steps.old + redo [] (replayed_on (limit_in progress.old.session.base) progress.old.session.files) }
{
    let derived = progress.session.derive(stem, label, steps)?;
    let text = derivation_reply(alloc, &derived)?;
    Ok(Move::Goes(text))
}

// Takes the bytes of a `put`, whose line stands behind so many bytes. It takes no step.
fn put<S: Source>(
    alloc: Global,
    progress: &mut Progress,
    source: &mut S,
    before: u64,
    name: FileName,
    count: u32,
) -> Result<Move, Halt>
    requires { count ≤ MAX_FILE_BYTES }
    ensures moves { (steps : ℕ) → Moves (at_bytes before (state_of progress.old) name count) progress.old progress.new
        (S.left source.old) (S.left source.new) steps steps result }
    ensures further { IfOk result (λ move. Follows progress.old progress.new move) }
    ensures limit { progress.old.reader.count ≤ MAX_SOURCE_BYTES → progress.new.reader.count ≤ MAX_SOURCE_BYTES }
    ensures fine { OnOk result (S.faults source.new ≡ S.faults source.old) }
    ensures faults { IfErr result (λ halt. HaltFaults halt (S.faults source.old) (S.faults source.new)) }
{
    match take_exact(alloc, &mut progress.reader, source, count) {
        Ok(bytes) => keep(alloc, &mut progress.session, name, bytes),
        Err(refusal) => without_bytes(alloc, before, refusal),
    }
}

// What a session does where it could not take the bytes of a `put`.
fn without_bytes(alloc: Global, before: u64, refusal: TakeRefusal) -> Result<Move, Halt>
    requires { refusal ≢ TakeRefusal.TooLong }
    ensures { Refuses refusal (IsStop (malformed_text before) Status.Malformed) Never result }
{
    match refusal {
        TakeRefusal::ReadFault => Err(Halt::ReadFault),
        TakeRefusal::End => refuse_malformed(alloc, before),
        TakeRefusal::TooLong => unreachable!(),
        TakeRefusal::Full => too_large(alloc),
        TakeRefusal::Memory => Err(Halt::Memory),
    }
}

// Puts a file in, unless it would be one too many.
fn keep(alloc: Global, session: &mut Session, name: FileName, bytes: Bytes) -> Result<Move, Halt>
    requires { length bytes ≤ MAX_FILE_BYTES }
    ensures { PutsIn session.old session.new name bytes result }
{
    match session.put(name, bytes) {
        Ok(()) => Ok(Move::Goes(Bytes::new(alloc))),
        Err(PutRefusal::Size) => too_large(alloc),
        Err(PutRefusal::Memory) => Err(Halt::Memory),
    }
}
