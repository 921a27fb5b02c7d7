ghost use Rattle.std.specs.Prelude.{◌≡◌, IfOk};

use larch_base::{Memory, Name};
use std::alloc::Global;

/// Memory, and some names that were read before, each at the place that its bytes say. A name that is kept takes no
/// memory when it is read again.
#[derive(Drop)]
pub struct Names {
    pub alloc: Global,
    kept: Vec<Option<Name>>,
}

impl Names {
    /// No names yet.
    pub fn new(alloc: Global) -> Result<Names, Memory> {
        let mut kept = Vec::with_capacity(alloc, 64)?;
        for _ in 0..64 {
            kept.push(None)?;
        }
        Ok(Names { alloc, kept })
    }

    /// The name with these bytes.
    pub fn name(&mut self, bytes: &[u8]) -> Result<Name, Memory>
        ensures { IfOk result (λ name. name ≡ bytes.now) }
    {
        let place = place_of(bytes);
        if let Some(Some(name)) = self.kept.get(place) {
            if name.bytes() == bytes {
                let again = name.copy()?;
                return Ok(again);
            }
        }
        let name = Name::new(self.alloc, bytes)?;
        if let Some(kept) = self.kept.get_mut(place) {
            *kept = Some(name.copy()?);
        }
        Ok(name)
    }
}

// Below 64.
fn place_of(bytes: &[u8]) -> usize {
    match bytes {
        [] => 0,
        [byte] => usize::from(*byte % 64),
        [first, .., last] => usize::from((*first ^ (*last << 2)) % 64),
    }
}
