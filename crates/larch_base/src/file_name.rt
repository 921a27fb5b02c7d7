ghost use Rattle.std.specs.Prelude.{◌≡◌, ◌↔◌, IfOk, IsErrOf, IsTrue, nat_eq, false};
ghost use Rattle.std.proofs.Common.{rules};
ghost use Rattle.std.specs.Cmp.{partial_order_from_own_ties};
ghost use Rattle.std.specs.Cmp.Lexicographic.{pointwise, slice_cmp};
ghost use Rattle.std.specs.Cmp.Rules.{comparing};
ghost use Rattle.std.specs.List.{list_all, position_or_len};
ghost use Rattle.std.specs.Ordering.{nat_cmp, as_partial_cmp};
ghost use Rattle.larch_base.specs.FileName.{is_file_name, is_trait_file, is_dot, is_stem, is_stem_byte, stem_of};
ghost use Rattle.larch_base.specs.FileName.{ending_of};
ghost use Rattle.larch_base.specs.declared.file_name.NameRefusal.TheVariants.{Memory as out_of_memory};

use crate::limits::MAX_STEM_BYTES;
use crate::memory::Memory;
use crate::name::Name;
use std::alloc::Global;
use std::cmp::Ordering;
use std::marker::Model;
use thiserror::Error;

/// The name of a trait file or a script: 1 to 64 letters, digits and `_`, then `.lsl` or `.lp`. Contracts see
/// it as its bytes.
#[derive(Debug, Drop)]
pub struct FileName {
    name: Name,
}

/// Why bytes are no file name.
#[derive(Clone, Copy, Debug, PartialEq, Eq, Error)]
pub enum NameRefusal {
    /// They have another form.
    #[error("not a file name")]
    NotAName,
    /// Out of memory.
    #[error("out of memory")]
    Memory,
}

impl From<Memory> for NameRefusal {
    ghost from_gives = { λ _ refusal. refusal ≡ out_of_memory };

    fn from(_memory: Memory) -> NameRefusal {
        NameRefusal::Memory
    }
}

impl Model for FileName {
    ghost use Rattle.std.specs.Prelude.{List, ℕ, IsTrue};
    ghost use Rattle.larch_base.specs.FileName.{is_file_name};

    ghost Value = { List ℕ };

    ghost view = { λ file. file.name };

    ghost invariant = { λ file. IsTrue (is_file_name file.name) };
}

impl FileName {
    /// The file name with these bytes.
    pub fn new(alloc: Global, bytes: &[u8]) -> Result<FileName, NameRefusal>
        ensures ok { IfOk result (λ file. file ≡ bytes.now) }
        ensures form { IfOk result (λ file. IsTrue (is_file_name bytes.now)) }
        ensures other_form { IsErrOf result NameRefusal.NotAName → is_file_name bytes.now ≡ false }
    {
        if !is_file_name(bytes) {
            return Err(NameRefusal::NotAName);
        }
        let name = Name::new(alloc, bytes)?;
        Ok(FileName { name })
    }

    /// The name's bytes.
    pub fn bytes(&self) -> &[u8]
        ensures { result.now ≡ self.now }
    {
        self.name.bytes()
    }

    /// What stands before the dot: the name of the trait.
    pub fn stem(&self) -> &[u8]
        ensures { result.now ≡ stem_of self.now }
    {
        split_at_dot(self.name.bytes()).0
    }

    /// Whether it is the file of a trait, and not a script.
    pub fn is_trait(&self) -> bool
        ensures { result ≡ is_trait_file self.now }
    {
        split_at_dot(self.name.bytes()).1 == b"lsl".as_slice()
    }
}

impl PartialEq for FileName {
    ghost eq = { pointwise nat_eq };

    ghost laws = { Prim.search (comparing, rules) };

    fn eq(&self, other: &FileName) -> bool {
        self.bytes() == other.bytes()
    }
}

impl Eq for FileName {
    ghost laws = { Prim.search (comparing, rules) };
}

impl PartialOrd for FileName {
    ghost partial_cmp = { as_partial_cmp (slice_cmp nat_cmp) };

    ghost laws = { partial_order_from_own_ties (Prim.search (comparing, rules)) (Prim.search (comparing, rules)) };

    fn partial_cmp(&self, other: &FileName) -> Option<Ordering> {
        Some(self.cmp(other))
    }
}

impl Ord for FileName {
    ghost cmp = { slice_cmp nat_cmp };

    ghost total = { Prim.search (comparing, rules) };

    ghost matches_partial_cmp = { Prim.search (comparing, rules) };

    ghost matches_eq = { Prim.search (comparing, rules) };

    fn cmp(&self, other: &FileName) -> Ordering {
        self.bytes().cmp(&other.bytes())
    }
}

/// Whether the bytes are a stem: 1 to 64 letters, digits and `_`. It takes no memory.
pub fn is_stem(bytes: &[u8]) -> bool
    ensures { result ≡ is_stem bytes.now }
{
    0 < bytes.len() && bytes.len() <= MAX_STEM_BYTES as usize && all_stem_bytes(bytes)
}

fn all_stem_bytes(bytes: &[u8]) -> bool
    ensures { result ≡ list_all is_stem_byte bytes.now }
{
    bytes.iter().all(|byte| is_stem_byte(*byte))
}

fn is_stem_byte(byte: u8) -> bool
    ensures { result ≡ is_stem_byte byte }
{
    byte.is_ascii_alphanumeric() || byte == b'_'
}

// Where the first dot stands, or the end where there is none.
#[tactic(auto, using(std::proofs::lemmas::List::Sums::position_or_len_is))]
fn first_dot(bytes: &[u8]) -> usize
    ensures { result ≡ position_or_len is_dot bytes.now }
{
    for (place, byte) in bytes.iter().enumerate() {
        if *byte == b'.' {
            return place;
        }
    }
    bytes.len()
}

// The bytes before the first dot, and those behind it.
fn split_at_dot(bytes: &[u8]) -> (&[u8], &[u8])
    ensures stem { result.0.now ≡ stem_of bytes.now }
    ensures ending { result.1.now ≡ ending_of bytes.now }
{
    let dot = first_dot(bytes);
    if dot < bytes.len() {
        (&bytes[..dot], &bytes[dot + 1..])
    } else {
        (bytes, &[])
    }
}

fn is_file_name(bytes: &[u8]) -> bool
    ensures { result ≡ is_file_name bytes.now }
{
    let (stem, ending) = split_at_dot(bytes);
    is_stem(stem) && (ending == b"lsl".as_slice() || ending == b"lp".as_slice())
}
