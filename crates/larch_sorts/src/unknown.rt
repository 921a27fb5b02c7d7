ghost use Rattle.std.specs.Prelude.{◌≡◌};
ghost use Rattle.larch_raw.specs.RawTree.{raw_forest};
ghost use Rattle.larch_sorts_signature.specs.SortsMeaningUnknown.{unknown_among, unknown_sort};
ghost use Rattle.larch_sorts_signature.specs.SortsMeaningUnknown.{sort_words, sort_words_of};

use larch_base::Pos;
use larch_raw::{RawEquation, RawNode, RawTerm, RawTerms};
use larch_sorts_signature::Signature;

// Where the first sort of a qualification in an equation stands that doesn't exist.
#[tactic(auto, using(crate::proofs::UnknownSorts::unknown_first, crate::proofs::UnknownSorts::known_first, crate::proofs::UnknownSorts::known_last))]
pub(crate) fn unknown_sort(signature: &Signature, raw: &RawEquation) -> Option<Pos>
    ensures { result ≡ unknown_sort signature.now raw.now }
{
    if let Some(pos) = unknown_in(signature, &raw.left) {
        return Some(pos);
    }
    match &raw.right {
        Some(right) => unknown_in(signature, &right.term),
        None => None,
    }
}

// The same in a term.
#[cycle(unknown)]
#[tactic(auto, using(larch_raw::specs::RawTree::raw_nodes_all_is_sum, crate::proofs::UnknownSorts::unknown_first, crate::proofs::UnknownSorts::known_first, crate::proofs::UnknownSorts::unknown_one))]
fn unknown_in(signature: &Signature, raw: &RawTerm) -> Option<Pos>
    ensures { result ≡ unknown_among signature.now (sort_words raw.now) }
{
    match raw.node() {
        RawNode::Apply(_, arguments, _) => unknown_in_any(signature, arguments),
        RawNode::Qualified(term, sort, _) => {
            if let Some(pos) = unknown_in(signature, term) {
                return Some(pos);
            }
            if signature.knows(&sort.name) {
                None
            } else {
                Some(sort.pos)
            }
        }
    }
}

// The same in arguments.
#[cycle(unknown)]
#[tactic(auto, using(larch_raw::specs::RawTree::raw_nodes_all_is_sum, crate::proofs::UnknownSorts::unknown_first, crate::proofs::UnknownSorts::known_first))]
fn unknown_in_any(signature: &Signature, arguments: &RawTerms) -> Option<Pos>
    ensures { result ≡ unknown_among signature.now (sort_words_of (raw_forest arguments.now)) }
{
    for argument in arguments.as_slice() {
        if let Some(pos) = unknown_in(signature, argument) {
            return Some(pos);
        }
    }
    None
}
