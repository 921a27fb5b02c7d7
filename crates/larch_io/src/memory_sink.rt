ghost use Rattle.std.specs.Prelude.{◌≡◌, ◌↔◌, ◌<◌, ◌≤◌, [], Some, Contains, min, length, IsErrOf, IfOk, IfErr, OnOk};
ghost use Rattle.std.specs.Io.KnownBytes.{WriteAppends};
ghost use Rattle.larch_io.specs.Faults.{one_more};
ghost use Rattle.larch_io.specs.Refusal.{WriteFaults};
ghost use Rattle.larch_io.specs.Calls.{IsNextCall, no_calls};

use crate::calls::Calls;
use crate::refusal::WriteRefusal;
use crate::sink::Sink;
use larch_base::Memory;
use std::alloc::Global;
use std::marker::Model;

/// Bytes in memory to which more are written by calls of which some fail. Contracts see it as the bytes that it
/// holds, and its calls.
#[derive(Drop)]
pub struct MemorySink {
    held: Vec<u8>,
    calls: Calls,
}

impl Model for MemorySink {
    ghost use Rattle.larch_io.specs.Calls.{InMemory};

    ghost Value = { InMemory };

    ghost view = { λ sink. record { bytes = sink.held.items; calls = sink.calls } };
}

impl MemorySink {
    /// A sink that holds nothing yet. The listed calls fail, counted from 1, and no call takes more bytes than
    /// `most`.
    pub fn new(alloc: Global, failing: &[u64], most: usize) -> Result<MemorySink, Memory>
        requires { 0 < most }
        ensures { IfOk result (λ sink. sink ≡ record { bytes = []; calls = no_calls failing.now most }) }
    {
        let calls = Calls::new(alloc, failing, most)?;
        Ok(MemorySink {
            held: Vec::new(alloc),
            calls,
        })
    }

    /// The bytes that it holds.
    pub fn bytes(&self) -> &[u8]
        ensures { result.now ≡ self.now.bytes }
    {
        self.held.as_slice()
    }
}

impl Sink for MemorySink {
    ghost held = { λ sink. Some sink.bytes };

    ghost faults = { λ sink. sink.calls.faults };

    fn write(&mut self, piece: &[u8]) -> Result<usize, WriteRefusal>
        requires { 0 < length piece.now }
        ensures count { IfOk result (λ n. (0 < n) × (n ≤ length piece.now)) }
        ensures bytes { WriteAppends (Some self.old.bytes) (Some self.new.bytes) result piece.now }
        ensures fine { OnOk result (self.new.calls.faults ≡ self.old.calls.faults) }
        ensures refused { IfErr result (λ refusal. WriteFaults refusal self.old.calls.faults self.new.calls.faults) }
        ensures next { IsNextCall self.old.calls self.new.calls }
        ensures fails { IsErrOf result WriteRefusal.Failed ↔ Contains self.old.calls.failing self.new.calls.made }
        ensures counted { IsErrOf result WriteRefusal.Failed → self.new.calls.faults ≡ one_more self.old.calls.faults }
        ensures moved { IfOk result (λ n. n ≡ min self.old.calls.most (length piece.now)) }
    {
        if self.calls.begin().is_err() {
            return Err(WriteRefusal::Failed);
        }
        let count = self.calls.most().min(piece.len());
        if self.held.extend_from_slice(&piece[..count]).is_err() {
            return Err(WriteRefusal::Memory);
        }
        Ok(count)
    }
}
