ghost use Rattle.std.specs.Prelude.{◌≡◌, ◌++◌, AllPairs, IfOk, None, [], ◌∷◌, false};
ghost use Rattle.larch_base.specs.Answering.{Answers};
ghost use Rattle.larch_term.specs.Substitution.{is_entry_of};
ghost use Rattle.larch_pairs_critical.specs.Pairs.{apart, critical_pairs, marking, pair_at, pair_within, raw_pair};
ghost use Rattle.larch_pairs_critical.specs.Pairs.{pairs_of, with_pairs_at};
ghost use Rattle.larch_pairs.specs.Refusal.{cause};
ghost use Rattle.larch_term.specs.Place.{at, put};
ghost use Rattle.larch_term.specs.Tree.{var};

use crate::inner::{below_root, copy_place, inner_places};
use crate::naming::{entries_under, named};
use crate::pair::{Apart, Pair, Pairs, Place, Rule};
use larch_base::{Memory, Name, Sequence};
use larch_pairs::{
    Entries, PairRefusal, substitute_within, substitution_of, unify, variables_of_both,
};
use larch_term::{Entry, ReplaceRefusal, Substitution, Term, Variable, at, replace_at, substitute};
use std::alloc::Global;

/// The critical pairs of the second rule's left side in the first one's (Knuth and Bendix 1970), at the places of the
/// first one at which no variable stands, each before those below it, from left to right. `one` tells that both are one
/// rule: then the root is left out. Variables are named v1, v2, .. in the order in which each occurs first: in the left
/// side, in the right side, and then in the terms of the two substitutions. `TooLarge` where at some place a
/// unification answers that, or a side of the pair has more than 5,000 nodes. Its time grows with the places, and at
/// each one at which the heads agree with that of a unification.
#[tactic(auto, using(crate::proofs::Pairing::of_apart))]
pub fn critical_pairs(
    alloc: Global,
    first: &Rule,
    second: &Rule,
    one: bool,
) -> Result<Pairs, PairRefusal>
    ensures { Answers cause result (critical_pairs first.now second.now one) }
{
    let first = set_apart(alloc, 1, first)?;
    let second = set_apart(alloc, 2, second)?;
    let pairs = pairs_of(alloc, &first, &second, one)?;
    Ok(pairs)
}

// The pairs of two rules whose variables are marked.
#[tactic(auto, using(crate::proofs::Pairing::pairs_of_one, crate::proofs::Pairing::pairs_of_two))]
fn pairs_of(alloc: Global, first: &Apart, second: &Apart, one: bool) -> Result<Pairs, PairRefusal>
    requires first { AllPairs (λ d e. is_entry_of e.name e.sort d ≡ false) first.now.by }
    requires second { AllPairs (λ d e. is_entry_of e.name e.sort d ≡ false) second.now.by }
    ensures { Answers cause result (pairs_of first.now second.now one) }
{
    let places = inner_places(alloc, &first.rule.left)?;
    if one {
        let pairs = pairs_at(alloc, first, second, below_root(places.as_slice()))?;
        return Ok(pairs);
    }
    let pairs = pairs_at(alloc, first, second, places.as_slice())?;
    Ok(pairs)
}

// The rule with its variables marked.
fn set_apart(alloc: Global, mark: u8, rule: &Rule) -> Result<Apart, Memory>
    ensures rule { IfOk result (λ a. a ≡ apart mark rule.now) }
    ensures different { IfOk result (λ a. AllPairs (λ d e. is_entry_of e.name e.sort d ≡ false) a.by) }
{
    let by = marking(alloc, mark, rule)?;
    let left = substitute(alloc, &rule.left, &by)?;
    let right = substitute(alloc, &rule.right, &by)?;
    Ok(Apart {
        rule: Rule { left, right },
        by,
    })
}

fn marking(alloc: Global, mark: u8, rule: &Rule) -> Result<Substitution, Memory>
    ensures entries { IfOk result (λ es. es ≡ marking mark rule.now) }
    ensures different { IfOk result (λ es. AllPairs (λ d e. is_entry_of e.name e.sort d ≡ false) es) }
{
    let entries = marks(alloc, mark, rule)?;
    let marking = substitution_of(alloc, entries)?;
    Ok(marking)
}

// The entries that mark the variables of a rule.
fn marks(alloc: Global, mark: u8, rule: &Rule) -> Result<Entries, Memory>
    ensures { IfOk result (λ es. es ≡ marking mark rule.now) }
{
    let variables = variables_of_both(alloc, &rule.left, &rule.right)?;
    let mut entries = Sequence::new(alloc);
    for variable in variables.as_slice() {
        let entry = marked(alloc, mark, variable)?;
        entries.push(entry)?;
    }
    Ok(entries)
}

// The entry that marks a variable.
fn marked(alloc: Global, mark: u8, variable: &Variable) -> Result<Entry, Memory>
    ensures { IfOk result (λ e. e ≡ record {
      name = variable.now.name;
      sort = variable.now.sort;
      term = var (variable.now.name ++ mark ∷ []) variable.now.sort;
    }) }
{
    let mut bytes = Vec::from_slice(alloc, variable.name.bytes())?;
    bytes.push(mark)?;
    let marked = Name::new(alloc, bytes.as_slice())?;
    let term = Term::var(marked, variable.sort.copy()?);
    let name = variable.name.copy()?;
    let sort = variable.sort.copy()?;
    Ok(Entry { name, sort, term })
}

// The pairs at places, in order.
#[tactic(auto, using(crate::proofs::Pairing::next_pair, crate::proofs::Pairing::no_pair))]
fn pairs_at(alloc: Global, one: &Apart, two: &Apart, places: &[Place]) -> Result<Pairs, PairRefusal>
    requires one { AllPairs (λ d e. is_entry_of e.name e.sort d ≡ false) one.now.by }
    requires two { AllPairs (λ d e. is_entry_of e.name e.sort d ≡ false) two.now.by }
    ensures { Answers cause result (with_pairs_at one.now two.now [] places.now) }
{
    let mut found = Sequence::new(alloc);
    for place in places {
        if let Some(pair) = pair_at(alloc, one, two, place.as_slice())? {
            found.push(pair)?;
        }
    }
    Ok(found)
}

// The pair at a place, if a unifier makes one.
#[tactic(auto, using(crate::proofs::Pairing::no_place, crate::proofs::Pairing::no_unifier, crate::proofs::Pairing::too_large, crate::proofs::Pairing::too_wide, crate::proofs::Pairing::by_unifier))]
fn pair_at(
    alloc: Global,
    one: &Apart,
    two: &Apart,
    place: &[u32],
) -> Result<Option<Pair>, PairRefusal>
    requires one { AllPairs (λ d e. is_entry_of e.name e.sort d ≡ false) one.now.by }
    requires two { AllPairs (λ d e. is_entry_of e.name e.sort d ≡ false) two.now.by }
    ensures { Answers cause result (pair_at one.now two.now place.now) }
{
    let Some(here) = at(&one.rule.left, place) else {
        return Ok(None);
    };
    let Some(unifier) = unify(alloc, here, &two.rule.left)? else {
        return Ok(None);
    };
    let raw = raw_pair(alloc, one, two, place, &unifier)?;
    let pair = named(alloc, raw)?;
    Ok(Some(pair))
}

// The pair that a unifier makes, before its variables get their names.
fn raw_pair(
    alloc: Global,
    one: &Apart,
    two: &Apart,
    place: &[u32],
    unifier: &Substitution,
) -> Result<Pair, PairRefusal>
    requires one { AllPairs (λ d e. is_entry_of e.name e.sort d ≡ false) one.now.by }
    requires two { AllPairs (λ d e. is_entry_of e.name e.sort d ≡ false) two.now.by }
    requires place { at one.now.rule.left place.now ≡ None → ⊥ }
    ensures pair { Answers cause result (pair_within (raw_pair one.now two.now place.now unifier.now)) }
    ensures first { IfOk result (λ q. AllPairs (λ d e. is_entry_of e.name e.sort d ≡ false) q.first) }
    ensures second { IfOk result (λ q. AllPairs (λ d e. is_entry_of e.name e.sort d ≡ false) q.second) }
{
    let put = put_at(alloc, &one.rule.left, place, &two.rule.right)?;
    let left = substitute_within(alloc, &put, unifier)?;
    let right = substitute_within(alloc, &one.rule.right, unifier)?;
    let first = entries_under(alloc, &one.by, unifier)?;
    let second = entries_under(alloc, &two.by, unifier)?;
    let place = copy_place(alloc, place)?;
    Ok(Pair {
        left,
        right,
        place,
        first,
        second,
    })
}

// A term with another one at one of its places.
fn put_at(alloc: Global, term: &Term, place: &[u32], by: &Term) -> Result<Term, Memory>
    requires { at term.now place.now ≡ None → ⊥ }
    ensures { IfOk result (λ t. t ≡ put term.now place.now by.now) }
{
    match replace_at(alloc, term, place, by) {
        Ok(put) => Ok(put),
        Err(ReplaceRefusal::NoPlace) => unreachable!(),
        Err(ReplaceRefusal::Memory) => Err(Memory),
    }
}
