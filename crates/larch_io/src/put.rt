ghost use Rattle.std.specs.Prelude.{◌≡◌, IfErr, OnOk, OnErr};
ghost use Rattle.std.specs.Io.KnownBytes.{Appends};
ghost use Rattle.larch_io.specs.Refusal.{WriteFaults};
ghost use Rattle.larch_io.specs.Put.{PutsFront};

use crate::refusal::WriteRefusal;
use crate::sink::Sink;

/// Appends all these bytes. A refusal comes after a front of them, never after all.
#[tactic(auto, using(crate::proofs::Known::front_of_none, crate::proofs::Known::puts_front))]
pub fn put_all<K: Sink>(sink: &mut K, bytes: &[u8]) -> Result<(), WriteRefusal>
    ensures ok { OnOk result (Appends (K.held sink.old) (K.held sink.new) bytes.now) }
    ensures fine { OnOk result (K.faults sink.new ≡ K.faults sink.old) }
    ensures front { OnErr result (PutsFront (K.held sink.old) (K.held sink.new) bytes.now) }
    ensures refused { IfErr result (λ refusal. WriteFaults refusal (K.faults sink.old) (K.faults sink.new)) }
{
    let mut put = 0;
    while put < bytes.len() {
        put += sink.write(&bytes[put..])?;
    }
    Ok(())
}
