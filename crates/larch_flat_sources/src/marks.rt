ghost use Rattle.std.specs.Prelude.{◌≡◌, ℕ, List, ◌<◌, [], ◌∷◌, length, bytes_eq, Ok};
ghost use Rattle.std.specs.List.{list_any};
ghost use Rattle.larch_flat_meaning.specs.Files.{closure};
ghost use Rattle.larch_flat_sources.specs.Links.{AreLeading, is_marked};
ghost use Rattle.larch_flat_sources.specs.Sources.{Table, files_in, name_at};

use std::marker::Model;

/// Files that are marked. Contracts see them as a list that says of each number whether it is marked.
#[derive(Drop)]
pub struct MarkedFiles {
    marked: Vec<bool>,
}

impl Model for MarkedFiles {
    ghost use Rattle.std.specs.Prelude.{Bool, List};

    ghost Value = { List Bool };

    ghost view = { λ marks. marks.marked.items };
}

impl MarkedFiles {
    // The marks that are told by these.
    pub(crate) fn from_vec(marked: Vec<bool>) -> MarkedFiles
        ensures { result ≡ marked.items }
    {
        MarkedFiles { marked }
    }

    /// How many files there are, marked or not. It takes no memory.
    pub fn len(&self) -> usize
        ensures { result ≡ length self.now }
    {
        self.marked.len()
    }

    /// Whether a file leads back to the one to which the marked files lead. It takes no memory, and its time is
    /// constant.
    pub fn leads_back(&self, target: usize) -> bool
        requires { target < length self.now }
        ensures marked { result ≡ is_marked self.now target }
        ensures back { (table : Table) (number : ℕ) → AreLeading table self.now number → number < length table
            → target < length table → (limit : ℕ) (ms : List (List ℕ))
            → closure (files_in table) limit (name_at table target ∷ []) ≡ Ok ms
            → result ≡ list_any (bytes_eq (name_at table number)) ms }
    {
        self.marked[target]
    }
}
