ghost use Rattle.std.specs.Prelude.{◌≡◌, ◌<◌, ◌≤◌, [], Some, length, IfOk, IfErr};
ghost use Rattle.std.specs.Io.KnownBytes.{WriteAppends};

use crate::refusal::WriteRefusal;
use crate::sink::Sink;
use std::alloc::Global;
use std::marker::Model;

/// Bytes in memory to which more are written without a fault. Contracts see it as the bytes that it holds.
#[derive(Drop)]
pub struct CleanSink {
    bytes: Vec<u8>,
}

impl Model for CleanSink {
    ghost use Rattle.std.specs.Prelude.{List, ℕ};

    ghost Value = { List ℕ };

    ghost view = { λ sink. sink.bytes.items };
}

impl CleanSink {
    /// A sink that holds nothing yet. It takes no memory.
    pub fn new(alloc: Global) -> CleanSink
        ensures { result ≡ [] }
    {
        CleanSink {
            bytes: Vec::new(alloc),
        }
    }

    /// The bytes that it holds.
    pub fn bytes(&self) -> &[u8]
        ensures { result.now ≡ self.now }
    {
        self.bytes.as_slice()
    }
}

impl Sink for CleanSink {
    ghost held = { λ sink. Some sink };

    ghost faults = { λ _. 0 };

    fn write(&mut self, piece: &[u8]) -> Result<usize, WriteRefusal>
        requires { 0 < length piece.now }
        ensures count { IfOk result (λ n. (0 < n) × (n ≤ length piece.now)) }
        ensures bytes { WriteAppends (Some self.old) (Some self.new) result piece.now }
        ensures memory { IfErr result (λ refusal. refusal ≡ WriteRefusal.Memory) }
        ensures moved { IfOk result (λ n. n ≡ length piece.now) }
    {
        if self.bytes.extend_from_slice(piece).is_err() {
            return Err(WriteRefusal::Memory);
        }
        Ok(piece.len())
    }
}
