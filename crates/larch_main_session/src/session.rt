ghost use Rattle.larch_main_status.specs.Faults.{Counts, read_failed, sink_failed};
ghost use Rattle.larch_main_session.specs.Endings.{SessionWrites, TakesInput};
ghost use Rattle.larch_main_session.specs.Reports.{Reported};

use crate::progress::{Move, Progress, advance};
use larch_base::Steps;
use larch_io::{Sink, Source, WriteRefusal, put_all};
use larch_main_status::{Halt, Status, say_at_end};
use std::alloc::Global;
use std::sync::ledger::Ledger;

/// Runs a session to its end, each duty of a report beginning with this rewriting limit, and answers how it ended.
pub fn run_session<S: Source, K: Sink, L: Ledger>(
    alloc: Global,
    limit: u32,
    source: &mut S,
    sink: &mut K,
    steps: &mut Steps<L>,
) -> Status
    ensures output { SessionWrites limit (S.left source.old) (S.left source.new) (K.held sink.old) (K.held sink.new)
        result }
    ensures input { TakesInput limit (S.left source.old) (S.left source.new) (K.held sink.old) (K.held sink.new)
        result }
    // Each duty that a report calls proved is derivable, and so is that of a derivation; the steps are at most those of
    // the reports and derivations.
    ensures reports { Reported limit (S.left source.old) (K.held sink.old) (K.held sink.new) steps.old steps.new }
    ensures source_faults { Counts (read_failed result) (S.faults source.old) (S.faults source.new) }
    ensures sink_faults { Counts (sink_failed result) (K.faults sink.old) (K.faults sink.new) }
{
    let mut progress = match Progress::new(alloc, limit) {
        Ok(progress) => progress,
        Err(_) => return Status::Memory,
    };
    loop {
        match advance(alloc, &mut progress, source, steps) {
            Ok(Move::Goes(reply)) => match put_all(sink, reply.bytes()) {
                Ok(()) => {}
                Err(WriteRefusal::Failed) => return Status::WriteFault,
                Err(WriteRefusal::Memory) => return Status::Memory,
            },
            Ok(Move::Stops(text, status)) => return say_at_end(sink, text.bytes(), status),
            Err(Halt::ReadFault) => return Status::ReadFault,
            Err(Halt::Memory) => return Status::Memory,
        }
    }
}
