ghost use Rattle.std.specs.Prelude.{◌≡◌, ◌+◌, ◌≤◌, ◌++◌, true, false, [], length, take, drop, vec_len, IfOk, IfErr};
ghost use Rattle.std.specs.Prelude.{OnOk, OnErr};
ghost use Rattle.std.specs.Io.{StartsWith, appended_bytes};
ghost use Rattle.std.specs.Io.KnownBytes.{Consumes, Keeps, IsAtEnd};
ghost use Rattle.larch_base.specs.declared.limits.TheConstants.{MAX_SOURCE_BYTES};
ghost use Rattle.larch_io.specs.Refusal.{FillRefused, TakeFaults};
ghost use Rattle.larch_io.specs.Reader.{Takes, room_of};

use crate::refusal::TakeRefusal;
use crate::source::Source;
use larch_base::Memory;
use larch_base::limits::MAX_SOURCE_BYTES;
use std::alloc::Global;
use std::marker::Model;

/// The most bytes that one read asks for.
const PIECE_BYTES: usize = 4096;

/// What takes bytes from a source. It keeps those that were read ahead, and counts those that were taken.
#[derive(Drop)]
pub struct Reader {
    bytes: Vec<u8>,
    start: usize,
    count: u64,
    ended: bool,
}

impl Model for Reader {
    ghost use Rattle.std.specs.Prelude.{◌≤◌, drop, vec_len};
    ghost use Rattle.larch_base.specs.declared.limits.TheConstants.{MAX_SOURCE_BYTES};
    ghost use Rattle.larch_io.specs.Reader.{Taken};

    ghost Value = { Taken };

    ghost view = { λ reader. record {
      kept = drop reader.start reader.bytes.items;
      count = reader.count;
      ended = reader.ended;
    } };

    ghost invariant = { λ reader. (reader.start ≤ vec_len reader.bytes) × (reader.count ≤ MAX_SOURCE_BYTES) };
}

impl Reader {
    /// A reader that keeps no bytes yet, and from which none were taken.
    pub fn new(alloc: Global) -> Result<Reader, Memory>
        ensures { IfOk result (λ reader. reader ≡ record { kept = []; count = 0; ended = false }) }
    {
        let bytes = Vec::with_capacity(alloc, PIECE_BYTES)?;
        Ok(Reader {
            bytes,
            start: 0,
            count: 0,
            ended: false,
        })
    }

    /// How many bytes were taken.
    pub fn taken(&self) -> u64
        ensures { result ≡ self.now.count }
    {
        self.count
    }

    // The bytes that were read and not taken.
    pub(crate) fn kept(&self) -> &[u8]
        ensures { result.now ≡ self.now.kept }
    {
        &self.bytes[self.start..]
    }

    // How many bytes may still be taken.
    pub(crate) fn room(&self) -> usize
        ensures room { result ≡ room_of self.now }
        ensures within { self.now.count ≤ MAX_SOURCE_BYTES }
    {
        (MAX_SOURCE_BYTES - self.count) as usize
    }

    // One read, unless the source has ended. Its bytes are kept behind those that are kept already.
    #[tactic(auto, using(crate::proofs::Front::takes_none))]
    pub(crate) fn fill<S: Source>(&mut self, source: &mut S) -> Result<usize, TakeRefusal>
        ensures taken { Takes self.old self.new (S.left source.old) (S.left source.new) [] }
        ensures counted { self.new.count ≡ self.old.count }
        ensures longer { IfOk result (λ n. length self.new.kept ≡ length self.old.kept + n) }
        ensures front { OnOk result (StartsWith self.new.kept self.old.kept) }
        ensures end { IfOk result (λ n. n ≡ 0 → self.new.ended ≡ true) }
        ensures err { OnErr result (self.new.kept ≡ self.old.kept) }
        ensures refused { IfErr result (FillRefused self.new.ended) }
        ensures fine { OnOk result (S.faults source.new ≡ S.faults source.old) }
        ensures faults { IfErr result (λ refusal. TakeFaults refusal (S.faults source.old) (S.faults source.new)) }
    {
        if self.ended {
            return Ok(0);
        }
        self.compact();
        let count = append_piece(&mut self.bytes, source)?;
        self.ended = count == 0;
        Ok(count)
    }

    // Moves what is kept to the front of the memory.
    fn compact(&mut self)
        ensures { self.new ≡ self.old }
    {
        if self.start > 0 {
            remove_front(&mut self.bytes, self.start);
            self.start = 0;
        }
    }

    // Takes bytes from the front, and as many behind them that are counted but not given.
    pub(crate) fn take_front(
        &mut self,
        alloc: Global,
        given: usize,
        ending: usize,
    ) -> Result<Vec<u8>, Memory>
        requires kept { given + ending ≤ length self.old.kept }
        requires room { given + ending ≤ room_of self.old }
        ensures ok { IfOk result (λ bytes. bytes.items ≡ take given self.old.kept) }
        ensures rest { OnOk result (self.new.kept ≡ drop (given + ending) self.old.kept) }
        ensures counted { OnOk result (self.new.count ≡ self.old.count + (given + ending)) }
        ensures ended { self.new.ended ≡ self.old.ended }
        ensures within { self.new.count ≤ MAX_SOURCE_BYTES }
        ensures err { OnErr result (self.new ≡ self.old) }
    {
        let bytes = Vec::from_slice(alloc, &self.kept()[..given])?;
        self.start += given + ending;
        self.count += (given + ending) as u64;
        Ok(bytes)
    }
}

// Removes the bytes before a place.
fn remove_front(bytes: &mut Vec<u8>, place: usize)
    requires { place ≤ vec_len bytes.old }
    ensures { bytes.new.items ≡ drop place bytes.old.items }
{
    let kept = bytes.len() - place;
    bytes.copy_within(place.., 0);
    bytes.truncate(kept);
}

// Appends what one read gives. Its room is there before the read, so that no byte is lost where memory runs out.
fn append_piece<S: Source>(bytes: &mut Vec<u8>, source: &mut S) -> Result<usize, TakeRefusal>
    ensures longer { IfOk result (λ n. vec_len bytes.new ≡ vec_len bytes.old + n) }
    ensures front { OnOk result (StartsWith bytes.new.items bytes.old.items) }
    ensures consumed { OnOk result
        (Consumes (S.left source.old) (S.left source.new) (appended_bytes bytes.old.items bytes.new.items)) }
    ensures end { IfOk result (λ n. n ≡ 0 → IsAtEnd (S.left source.new)) }
    ensures err { OnErr result (bytes.new.items ≡ bytes.old.items) }
    ensures same { OnErr result (Keeps (S.left source.old) (S.left source.new)) }
    ensures refused { IfErr result (FillRefused false) }
    ensures fine { OnOk result (S.faults source.new ≡ S.faults source.old) }
    ensures faults { IfErr result (λ refusal. TakeFaults refusal (S.faults source.old) (S.faults source.new)) }
{
    let mut piece = [0; PIECE_BYTES];
    if bytes.reserve(PIECE_BYTES).is_err() {
        return Err(TakeRefusal::Memory);
    }
    let count = source.read(&mut piece)?;
    let _ = bytes.extend_from_slice(&piece[..count]);
    Ok(count)
}
