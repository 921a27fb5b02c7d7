ghost use Rattle.larch_main_status.specs.Say.{Says};

use crate::status::Status;
use larch_io::{Sink, WriteRefusal, put_all};

/// Writes a text and answers the status, or why it could not be written.
pub fn say_at_end<K: Sink>(sink: &mut K, text: &[u8], status: Status) -> Status
    ensures { Says (K.held sink.old) (K.held sink.new) (K.faults sink.old) (K.faults sink.new) text.now status result }
{
    match put_all(sink, text) {
        Ok(()) => status,
        Err(WriteRefusal::Failed) => Status::WriteFault,
        Err(WriteRefusal::Memory) => Status::Memory,
    }
}
