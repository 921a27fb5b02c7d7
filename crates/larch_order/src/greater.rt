ghost use Rattle.std.specs.Prelude.{◌≡◌, ◌↔◌, IsTrue, if◌then◌else◌};
ghost use Rattle.std.specs.List.{list_any, list_all};
ghost use Rattle.larch_term.specs.Tree.{forest_of};
ghost use Rattle.larch_term.specs.Equality.{same_tree};
ghost use Rattle.larch_order.specs.Greater.{OneHead, Greater, greater, comparison, is_above, reaches};
ghost use Rattle.larch_order.specs.Greater.{multiset_greater, some_reaches, some_beats, remains, count_of};

use crate::precedence::Precedence;
use larch_base::Way;
use larch_term::{Node, Term, same_term};

// How a term stands to another one.
#[derive(Clone, Copy)]
pub(crate) enum Comparison {
    Same,
    Above,
    Neither,
}

impl Comparison {
    fn above_if(holds: bool) -> Comparison
        ensures { result ≡ (if holds then Comparison.Above else Comparison.Neither) }
    {
        if holds {
            Comparison::Above
        } else {
            Comparison::Neither
        }
    }

    fn is_above(self) -> bool
        ensures { result ≡ is_above self }
    {
        matches!(self, Comparison::Above)
    }

    // Whether it is the same or stands above.
    fn reaches(self) -> bool
        ensures { result ≡ reaches self }
    {
        !matches!(self, Comparison::Neither)
    }
}

impl Precedence {
    /// Whether a term is greater than another one in the recursive path ordering with status (Dershowitz 1982, Kamin
    /// and Lévy 1980). It takes no memory. It compares each subterm of the left term with each of the right one at
    /// most once (Löchner 2006), so its time grows with the product of the sizes; where an operator compares as a
    /// multiset, tests of equality come on top. It goes down by at most three calls for each level of the two terms.
    #[tactic(auto, using(crate::proofs::Comparing::above_is_greater))]
    pub fn greater(&self, left: &Term, right: &Term) -> bool
        ensures ordering { IsTrue result ↔ Greater self.now left.now right.now }
        ensures computed { result ≡ greater self.now left.now right.now }
    {
        self.compare(left, right).is_above()
    }

    // How a term stands to another one. Where the head of the left term is above that of the right one, no argument
    // of the left term is tried: if one reached the right term, the left term would be greater than each argument of
    // the right one too. For the like reason most arguments needn't be tried where the heads are equal.
    #[cycle(compare)]
    fn compare(&self, left: &Term, right: &Term) -> Comparison
        ensures { result ≡ comparison self.now left.now right.now }
    {
        let Node::App(operator, arguments) = left.node() else {
            return same_or_neither(left, right);
        };
        let terms = arguments.as_slice();
        let Node::App(other, arguments) = right.node() else {
            return Comparison::above_if(self.some_reaches(terms, right));
        };
        let others = arguments.as_slice();
        if operator == other {
            return match self.status(operator) {
                Way::LeftToRight => self.compare_from_left(left, terms, right, others),
                Way::RightToLeft => self.compare_from_right(left, terms, right, others),
                Way::Multiset if same_term(left, right) => Comparison::Same,
                Way::Multiset => Comparison::above_if(self.multiset_greater(terms, others)),
            };
        }
        let above = if self.is_above(operator, other) {
            self.is_above_all(left, others)
        } else {
            self.some_reaches(terms, right)
        };
        Comparison::above_if(above)
    }

    // How two applications of an operator that compares from the left stand. At the first place at which their
    // arguments differ one of three answers comes. Either way only the arguments further right are left to try: the
    // left term is greater than those of the right one up to there, or its own up to there are below the right term.
    #[cycle(compare)]
    fn compare_from_left(
        &self,
        left: &Term,
        terms: &[Term],
        right: &Term,
        others: &[Term],
    ) -> Comparison
        requires { OneHead self.now left.now terms.now right.now others.now Way.LeftToRight }
        ensures { result ≡ comparison self.now left.now right.now }
    {
        for i in 0..terms.len() {
            if i >= others.len() {
                return Comparison::above_if(self.some_reaches(&terms[i..], right));
            }
            match self.compare(&terms[i], &others[i]) {
                Comparison::Same => {}
                Comparison::Above => {
                    return Comparison::above_if(self.is_above_all(left, &others[i + 1..]));
                }
                Comparison::Neither => {
                    return Comparison::above_if(self.some_reaches(&terms[i + 1..], right));
                }
            }
        }
        if terms.len() == others.len() {
            Comparison::Same
        } else {
            Comparison::Neither
        }
    }

    // The same from the right. Lists of different lengths aren't compared, so that any argument of the left term may
    // reach the right one.
    #[cycle(compare)]
    fn compare_from_right(
        &self,
        left: &Term,
        terms: &[Term],
        right: &Term,
        others: &[Term],
    ) -> Comparison
        requires { OneHead self.now left.now terms.now right.now others.now Way.RightToLeft }
        ensures { result ≡ comparison self.now left.now right.now }
    {
        if terms.len() != others.len() {
            return Comparison::above_if(self.some_reaches(terms, right));
        }
        let mut i = terms.len();
        while i > 0 {
            i -= 1;
            match self.compare(&terms[i], &others[i]) {
                Comparison::Same => {}
                Comparison::Above => {
                    return Comparison::above_if(self.is_above_all(left, &others[..i]));
                }
                Comparison::Neither => {
                    return Comparison::above_if(self.some_reaches(&terms[..i], right));
                }
            }
        }
        Comparison::Same
    }

    // Whether some term is another one or greater.
    #[cycle(compare)]
    #[tactic(auto, using(crate::proofs::Comparing::above_is_greater, crate::proofs::Comparing::reaches_is))]
    fn some_reaches(&self, terms: &[Term], other: &Term) -> bool
        ensures { result ≡ some_reaches self.now (forest_of terms.now) other.now }
    {
        for term in terms {
            if self.compare(term, other).reaches() {
                return true;
            }
        }
        false
    }

    // Whether a term is greater than each of others.
    #[cycle(compare)]
    #[tactic(auto, using(crate::proofs::Comparing::above_is_greater, crate::proofs::Comparing::reaches_is))]
    fn is_above_all(&self, term: &Term, others: &[Term]) -> bool
        ensures { result ≡ list_all (greater self.now term.now) others.now }
    {
        for other in others {
            if !self.compare(term, other).is_above() {
                return false;
            }
        }
        true
    }

    // Whether the terms are greater as a multiset.
    #[cycle(compare)]
    fn multiset_greater(&self, terms: &[Term], others: &[Term]) -> bool
        ensures { result ≡ multiset_greater
            (λ u. some_beats self.now (forest_of terms.now) terms.now others.now u) terms.now others.now }
    {
        if !some_remains(terms, others) {
            return false;
        }
        for other in others {
            if remains(others, terms, other) && !self.some_beats(terms, others, other) {
                return false;
            }
        }
        true
    }

    // Whether some term that remains of a list beside another one is greater than a term.
    #[cycle(compare)]
    #[tactic(auto, using(crate::proofs::Comparing::above_is_greater, crate::proofs::Comparing::reaches_is))]
    fn some_beats(&self, terms: &[Term], others: &[Term], other: &Term) -> bool
        ensures { result ≡ some_beats self.now (forest_of terms.now) terms.now others.now other.now }
    {
        for term in terms {
            if remains(terms, others, term) && self.compare(term, other).is_above() {
                return true;
            }
        }
        false
    }
}

// How a term stands to another one that it isn't greater than.
fn same_or_neither(left: &Term, right: &Term) -> Comparison
    ensures { result ≡ (if same_tree left.now right.now then Comparison.Same else Comparison.Neither) }
{
    if same_term(left, right) {
        Comparison::Same
    } else {
        Comparison::Neither
    }
}

// Whether some term of a first list remains beside a second.
fn some_remains(terms: &[Term], others: &[Term]) -> bool
    ensures { result ≡ list_any (remains terms.now others.now) terms.now }
{
    terms.iter().any(|term| remains(terms, others, term))
}

// Whether a term occurs more often in a first list than in a second.
fn remains(terms: &[Term], others: &[Term], term: &Term) -> bool
    ensures { result ≡ remains terms.now others.now term.now }
{
    count_of(term, others) < count_of(term, terms)
}

fn count_of(term: &Term, terms: &[Term]) -> usize
    ensures { result ≡ count_of term.now terms.now }
{
    let mut count = 0;
    for other in terms {
        if same_term(other, term) {
            count += 1;
        }
    }
    count
}
