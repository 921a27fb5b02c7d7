ghost use Rattle.std.specs.Prelude.{◌≡◌, ◌↔◌, IsTrue, IfOk};

use larch_base::{Memory, Name};
use std::alloc::Global;

// A byte alone has a place of its own, and longer texts share the places behind these.
const OF_BYTES: usize = 128;

// So many bytes of a text make one more place.
const BYTES_OF_PLACE: usize = 32;

/// Memory, and some names of tokens before, each at the place that its bytes say. A token whose name is kept takes no
/// memory for it.
#[derive(Drop)]
pub(crate) struct Names {
    alloc: Global,
    shared: usize,
    kept: Vec<Option<Name>>,
}

impl Names {
    /// No names yet, with places for those of a text of this length.
    pub(crate) fn new(alloc: Global, length: usize) -> Result<Names, Memory> {
        let shared = OF_BYTES + length / BYTES_OF_PLACE;
        let places = OF_BYTES + shared;
        let mut kept = Vec::with_capacity(alloc, places)?;
        for _ in 0..places {
            kept.push(None)?;
        }
        Ok(Names {
            alloc,
            shared,
            kept,
        })
    }

    /// The name with these bytes.
    pub(crate) fn name(&mut self, bytes: &[u8]) -> Result<Name, Memory>
        ensures { IfOk result (λ name. name ≡ bytes.now) }
    {
        let place = self.place_of(bytes);
        if let Some(Some(name)) = self.kept.get(place) {
            if are_same(name.bytes(), bytes) {
                let again = name.copy()?;
                return Ok(again);
            }
        }
        self.keep(place, bytes)
    }

    // A new name with these bytes, which is kept at a place.
    #[cold]
    #[inline(never)]
    fn keep(&mut self, place: usize, bytes: &[u8]) -> Result<Name, Memory>
        ensures { IfOk result (λ name. name ≡ bytes.now) }
    {
        let name = Name::new(self.alloc, bytes)?;
        if let Some(kept) = self.kept.get_mut(place) {
            *kept = Some(name.copy()?);
        }
        Ok(name)
    }

    // Below the number of places, wherever there are bytes of tokens.
    fn place_of(&self, bytes: &[u8]) -> usize {
        match bytes {
            [byte] => usize::from(*byte) % OF_BYTES,
            _ => self.shared_place_of(bytes),
        }
    }

    #[inline(never)]
    fn shared_place_of(&self, bytes: &[u8]) -> usize {
        match mix(bytes).checked_rem(self.shared) {
            Some(place) => OF_BYTES.saturating_add(place),
            None => 0,
        }
    }
}

// A number that few other texts have.
fn mix(bytes: &[u8]) -> usize {
    let mut number: usize = 0;
    for byte in bytes {
        number = number.wrapping_mul(31).wrapping_add(usize::from(*byte));
    }
    number
}

// Texts of one byte, which most are, are compared at once.
fn are_same(left: &[u8], right: &[u8]) -> bool
    ensures { IsTrue result ↔ (left.now ≡ right.now) }
{
    if let [byte] = left {
        if let [other] = right {
            return *byte == *other;
        }
        return false;
    }
    left == right
}
