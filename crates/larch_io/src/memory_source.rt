ghost use Rattle.std.specs.Prelude.{◌≡◌, ◌↔◌, ◌<◌, ◌≤◌, Some, Contains, min, length, IsErr, IfOk, OnOk, OnErr};
ghost use Rattle.std.specs.Io.KnownBytes.{ReadConsumes};
ghost use Rattle.larch_io.specs.Faults.{Rose, one_more};
ghost use Rattle.larch_io.specs.Calls.{IsNextCall, no_calls};

use crate::calls::Calls;
use crate::clean_source::CleanSource;
use crate::refusal::Failed;
use crate::source::Source;
use larch_base::Memory;
use std::alloc::Global;
use std::marker::Model;

/// Bytes in memory that are read by calls of which some fail. Contracts see it as the bytes that are left, and
/// its calls.
#[derive(Drop)]
pub struct MemorySource {
    rest: CleanSource,
    calls: Calls,
}

impl Model for MemorySource {
    ghost use Rattle.larch_io.specs.Calls.{InMemory};

    ghost Value = { InMemory };

    ghost view = { λ source. record { bytes = source.rest; calls = source.calls } };
}

impl MemorySource {
    /// A source of these bytes. The listed calls fail, counted from 1, and no call gives more bytes than `most`.
    pub fn new(
        alloc: Global,
        bytes: &[u8],
        failing: &[u64],
        most: usize,
    ) -> Result<MemorySource, Memory>
        requires { 0 < most }
        ensures { IfOk result (λ source. source ≡ record { bytes = bytes.now; calls = no_calls failing.now most }) }
    {
        let calls = Calls::new(alloc, failing, most)?;
        let rest = CleanSource::new(alloc, bytes)?;
        Ok(MemorySource { rest, calls })
    }
}

impl Source for MemorySource {
    ghost left = { λ source. Some source.bytes };

    ghost faults = { λ source. source.calls.faults };

    fn read(&mut self, piece: &mut [u8]) -> Result<usize, Failed>
        requires { 0 < length piece.old }
        ensures count { IfOk result (λ n. n ≤ length piece.new) }
        ensures bytes { ReadConsumes (Some self.old.bytes) (Some self.new.bytes) result piece.new }
        ensures fine { OnOk result (self.new.calls.faults ≡ self.old.calls.faults) }
        ensures failed { OnErr result (Rose self.old.calls.faults self.new.calls.faults) }
        ensures next { IsNextCall self.old.calls self.new.calls }
        ensures fails { IsErr result ↔ Contains self.old.calls.failing self.new.calls.made }
        ensures counted { OnErr result (self.new.calls.faults ≡ one_more self.old.calls.faults) }
        ensures moved { IfOk result (λ n.
            n ≡ min self.old.calls.most (min (length piece.new) (length self.old.bytes))) }
    {
        self.calls.begin()?;
        let most = self.calls.most();
        Ok(self.rest.give(piece, most))
    }
}
