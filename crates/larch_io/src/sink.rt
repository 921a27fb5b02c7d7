ghost use Rattle.std.specs.Prelude.{◌≡◌, ◌<◌, ◌≤◌, ℕ, List, Option, length, IfOk, IfErr, OnOk};
ghost use Rattle.std.specs.Io.KnownBytes.{WriteAppends};
ghost use Rattle.larch_io.specs.Refusal.{WriteFaults};

use crate::refusal::WriteRefusal;

/// What bytes are written to.
pub trait Sink {
    /// The bytes that it holds, where it tells them.
    ghost held: { Self → Option (List ℕ) };

    /// The count of its faults.
    ghost faults: { Self → ℕ };

    /// Appends a front of the piece, and says how many bytes, never none. A refusal appends nothing.
    fn write(&mut self, piece: &[u8]) -> Result<usize, WriteRefusal>
        requires { 0 < length piece.now }
        ensures count { IfOk result (λ n. (0 < n) × (n ≤ length piece.now)) }
        ensures bytes { WriteAppends (held self.old) (held self.new) result piece.now }
        ensures fine { OnOk result (faults self.new ≡ faults self.old) }
        ensures refused { IfErr result (λ refusal. WriteFaults refusal (faults self.old) (faults self.new)) };
}
