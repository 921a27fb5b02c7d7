use larch_base::Sequence;
use larch_term::{Substitution, Term};

/// A rule that rewrites instances of its left side into those of its right side.
pub struct Rule {
    pub left: Term,
    pub right: Term,
}

// A call wherever a rule is dropped, so that no function's proof takes rules apart.
impl Drop for Rule {
    fn drop(self) {
        let Rule {
            left: _left,
            right: _right,
        } = self;
    }
}

/// A place in a term: argument numbers, counted from 1, from the root down.
pub type Place = Sequence<u32>;

/// A critical pair of two rules: what the two rules make of one term, the second one at a place of it.
pub struct Pair {
    /// The first rule's left side under `first`, with the second rule's right side under `second` at the place.
    pub left: Term,
    /// The first rule's right side under `first`.
    pub right: Term,
    /// Where in the first rule's left side the second one's left side stands.
    pub place: Place,
    /// What takes the places of the first rule's variables.
    pub first: Substitution,
    /// What takes the places of the second rule's variables.
    pub second: Substitution,
}

// A call wherever a pair is dropped, so that no function's proof takes pairs apart.
impl Drop for Pair {
    fn drop(self) {
        let Pair {
            left: _left,
            right: _right,
            place: _place,
            first: _first,
            second: _second,
        } = self;
    }
}

/// Several critical pairs, in order.
pub type Pairs = Sequence<Pair>;

// A rule whose variables are marked, and what marks them.
pub(crate) struct Apart {
    pub(crate) rule: Rule,
    pub(crate) by: Substitution,
}

// A call wherever one is dropped, so that no function's proof takes it apart.
impl Drop for Apart {
    fn drop(self) {
        let Apart {
            rule: _rule,
            by: _by,
        } = self;
    }
}
