ghost use Rattle.std.specs.Prelude.{◌≡◌, ℕ, ◌<◌, length, IfOk};
ghost use Rattle.std.specs.Bool.{Decides};
ghost use Rattle.larch_flat_sources.specs.Links.{AreLeading, AreLinks, AreWithin, Leads, is_marked};
ghost use Rattle.larch_flat_sources.specs.Sources.{Table};

use crate::building::referrers;
use crate::marks::MarkedFiles;
use crate::search::marked_from;
use crate::sources::Sources;
use larch_base::{Memory, Sequence};
use std::alloc::Global;
use std::marker::Model;

/// For each file the numbers of those that refer to it, no more of them than there are files. Contracts see the links
/// as the list of these lists.
#[derive(Drop)]
pub struct Links {
    referring: Vec<Sequence<usize>>,
}

impl Model for Links {
    ghost use Rattle.std.specs.Prelude.{List, ℕ};
    ghost use Rattle.larch_flat_sources.specs.Links.{AreWithin};

    ghost Value = { List (List ℕ) };

    ghost view = { λ links. links.referring.items };

    ghost invariant = { λ links. AreWithin links.referring.items };
}

/// The links of the files. Its time is that of their references, and its memory that of the links, of which there are
/// at most as many as pairs of files.
pub fn links_of(alloc: Global, sources: &Sources) -> Result<Links, Memory>
    ensures { IfOk result (λ links. AreLinks sources.now links) }
{
    let referring = referrers(alloc, sources)?;
    Ok(Links { referring })
}

impl Links {
    /// How many files there are. It takes no memory.
    pub fn len(&self) -> usize
        ensures { result ≡ length self.now }
    {
        self.referring.len()
    }

    /// Marks the files that lead to the one with a number. Its time is that of the links.
    pub fn leading_to(&self, alloc: Global, number: usize) -> Result<MarkedFiles, Memory>
        requires { number < length self.now }
        ensures size { IfOk result (λ marks. length marks ≡ length self.now) }
        ensures leads { IfOk result (λ marks. (m : ℕ) → Decides (is_marked marks m) (Leads self.now m number)) }
        ensures leading { IfOk result (λ marks. (table : Table) → AreLinks table self.now
            → AreLeading table marks number) }
    {
        let marked = marked_from(alloc, self.referring.as_slice(), number)?;
        Ok(MarkedFiles::from_vec(marked))
    }
}
