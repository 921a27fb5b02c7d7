ghost use Rattle.std.specs.Prelude.{◌≡◌, ◌<◌, ◌≤◌, ◌++◌, [], Some, min, length, take, IsOk, IfOk};
ghost use Rattle.std.specs.Io.KnownBytes.{ReadConsumes};

use crate::refusal::Failed;
use crate::source::Source;
use larch_base::Memory;
use std::alloc::Global;
use std::marker::Model;

/// Bytes in memory that are read without a fault. Contracts see it as the bytes that are left.
#[derive(Drop)]
pub struct CleanSource {
    bytes: Vec<u8>,
    start: usize,
}

impl Model for CleanSource {
    ghost use Rattle.std.specs.Prelude.{List, ℕ, ◌≤◌, drop, vec_len};

    ghost Value = { List ℕ };

    ghost view = { λ source. drop source.start source.bytes.items };

    ghost invariant = { λ source. source.start ≤ vec_len source.bytes };
}

impl CleanSource {
    /// A source of these bytes.
    pub fn new(alloc: Global, bytes: &[u8]) -> Result<CleanSource, Memory>
        ensures { IfOk result (λ source. source ≡ bytes.now) }
    {
        let bytes = Vec::from_slice(alloc, bytes)?;
        Ok(CleanSource { bytes, start: 0 })
    }

    /// Fills a front of the piece with the next bytes, at most so many, and says how many.
    pub(crate) fn give(&mut self, piece: &mut [u8], most: usize) -> usize
        ensures count { result ≡ min most (min (length piece.new) (length self.old)) }
        ensures moved { self.old ≡ take result piece.new ++ self.new }
        ensures end { result ≡ 0 → 0 < most → 0 < length piece.new → self.new ≡ [] }
    {
        let count = copy_front(&self.bytes[self.start..], piece, most);
        self.start += count;
        count
    }
}

impl Source for CleanSource {
    ghost left = { λ source. Some source };

    ghost faults = { λ _. 0 };

    fn read(&mut self, piece: &mut [u8]) -> Result<usize, Failed>
        ensures count { IfOk result (λ n. n ≤ length piece.new) }
        ensures bytes { ReadConsumes (Some self.old) (Some self.new) result piece.new }
        ensures ok { IsOk result }
        ensures moved { IfOk result (λ n. n ≡ min (length piece.new) (length self.old)) }
    {
        Ok(self.give(piece, usize::MAX))
    }
}

// Copies a front, at most so many bytes, and says how many.
fn copy_front(from: &[u8], to: &mut [u8], most: usize) -> usize
    ensures count { result ≡ min most (min (length to.old) (length from.now)) }
    ensures copied { take result to.new ≡ take result from.now }
{
    let count = from.len().min(to.len()).min(most);
    to[..count].copy_from_slice(&from[..count]);
    count
}
