ghost use Rattle.std.specs.Prelude.{◌≡◌, ◌↔◌, IsTrue};
ghost use Rattle.std.specs.List.{list_all};
ghost use Rattle.larch_import_names.specs.Apartness.{IsApart, is_apart};

use crate::pairs::{Renaming, SortPair};

/// Whether any two different sorts that are named have different new sorts. It takes no memory.
pub fn apart(by: &Renaming) -> bool
    ensures { IsTrue result ↔ IsApart by.now }
{
    are_apart(by.sorts.as_slice())
}

// Whether all of these pairs are apart from one another.
fn are_apart(pairs: &[SortPair]) -> bool
    ensures { result ≡ list_all (λ p. list_all (is_apart p) pairs.now) pairs.now }
{
    pairs.iter().all(|pair| is_apart_from(pair, pairs))
}

// Whether a pair is apart from all of these.
fn is_apart_from(pair: &SortPair, pairs: &[SortPair]) -> bool
    ensures { result ≡ list_all (is_apart pair.now) pairs.now }
{
    pairs.iter().all(|other| is_apart(pair, other))
}

// Whether two pairs with one new sort have one old sort.
fn is_apart(pair: &SortPair, other: &SortPair) -> bool
    ensures { result ≡ is_apart pair.now other.now }
{
    pair.new != other.new || pair.old == other.old
}
