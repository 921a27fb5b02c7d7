ghost use Rattle.std.specs.Prelude.{◌≡◌, ◌+◌, ◌∷◌, [], ◌||◌, AllPairs, IfOk, Ok, Err, if◌then◌else◌, false};
ghost use Rattle.std.specs.List.{list_any};
ghost use Rattle.larch_base.specs.Answering.{Answers};
ghost use Rattle.larch_term.specs.Substitution.{is_entry_of, instance_of};
ghost use Rattle.larch_pairs.specs.Refusal.{cause};
ghost use Rattle.larch_pairs.specs.Clashes.{unless_clash};
ghost use Rattle.larch_pairs.specs.Resolved.{resolve};
ghost use Rattle.larch_pairs.specs.Unify.{a_term_is_too_large, is_large, sides_under, variables_of_both};
ghost use Rattle.larch_pairs.specs.Unify.{unify, unify_from};
ghost use Rattle.larch_term.specs.Tree.{nodes};

use crate::demand::{Demand, Equations, Sides, demand_of, first_demand, occurs};
use crate::refusal::PairRefusal;
use crate::replacing::{is_large_under, replaced, replaced_within};
use larch_base::{Memory, Sequence, let_go};
use larch_term::{Entry, Substitution, Term, Variable, Variables, add_variables, size, variables};
use std::alloc::Global;
use std::slice;

/// Bindings of variables, in order.
pub type Entries = Sequence<Entry>;

/// The substitution that makes two terms one, from which every other one comes by a further substitution; `None` where
/// no substitution makes them one. By eager substitution (Robinson 1965), a variable on the left being bound first.
/// `TooLarge` where a binding makes a side or a bound term of more than 5,000 nodes. Each of the bindings, which are at
/// most as many as the terms have variables, takes time by the size of the equations that are left, of which those are
/// copied that have its variable; bound terms are made once, at the end.
#[tactic(auto, using(crate::proofs::Unifying::from_clash, crate::proofs::Rounds::unify_by_nodes, crate::proofs::Rounds::different_answer))]
pub fn unify(alloc: Global, left: &Term, right: &Term) -> Result<Option<Substitution>, PairRefusal>
    ensures { Answers cause result (unify left.now right.now) }
{
    let demand = demand_of(alloc, left, right)?;
    if let Demand::Clash = demand {
        return Ok(None);
    }
    let rounds = nodes_of_both(left, right)?;
    let Some(bound) = unify_from(alloc, rounds, demand)? else {
        return Ok(None);
    };
    let unifier = substitution_of(alloc, bound)?;
    Ok(Some(unifier))
}

// How many nodes two terms have, which is more than they have variables. Memory doesn't hold terms of 2^64 nodes.
fn nodes_of_both(left: &Term, right: &Term) -> Result<u64, Memory>
    ensures { IfOk result (λ n. n ≡ nodes left.now + nodes right.now) }
{
    let total = size(left).saturating_add(size(right));
    if total == u64::MAX {
        return Err(Memory);
    }
    Ok(total)
}

// The bindings that meet a demand and all later ones, where at most so many variables are bound. A binding is put into
// the equations that are left, but into those before it only at the end: their terms don't get smaller, so whether one
// is too large shows there too.
#[tactic(auto, using(crate::proofs::Later::round_made, crate::proofs::Later::round_refused, crate::proofs::Later::no_round, crate::proofs::Later::ended, crate::proofs::Later::clashed))]
fn unify_from(alloc: Global, count: u64, demand: Demand) -> Result<Option<Entries>, PairRefusal>
    ensures { Answers cause result (unify_from count demand []) }
{
    let mut left = count;
    let mut asked = demand;
    let mut bound = Sequence::new(alloc);
    while let Demand::Bind(variable, term, equations) = asked {
        if left == 0 {
            return Err(let_go(
                PairRefusal::TooLarge,
                ((variable, term), (equations, bound)),
            ));
        }
        left -= 1;
        let entry = Entry {
            name: variable.name,
            sort: variable.sort,
            term,
        };
        if some_side_is_large(equations.as_slice(), slice::from_ref(&entry)) {
            return Err(let_go(PairRefusal::TooLarge, (equations, (entry, bound))));
        }
        let equations = match sides_under(alloc, equations, &entry) {
            Ok(equations) => equations,
            Err(memory) => return Err(let_go(PairRefusal::from(memory), (entry, bound))),
        };
        if let Err(memory) = bound.push(entry) {
            return Err(let_go(PairRefusal::from(memory), (equations, bound)));
        }
        asked = match first_demand(alloc, equations) {
            Ok(asked) => asked,
            Err(memory) => return Err(let_go(PairRefusal::from(memory), bound)),
        };
    }
    match resolve(alloc, bound) {
        Ok(bound) => Ok(unless_clash(asked, bound)),
        Err(refusal) => Err(let_go(refusal, asked)),
    }
}

// The bindings, unless what is asked is what no substitution does.
fn unless_clash(asked: Demand, bound: Entries) -> Option<Entries>
    ensures { result ≡ unless_clash asked bound }
{
    match asked {
        Demand::Clash => let_go(None, bound),
        Demand::Nothing => Some(bound),
        Demand::Bind(variable, term, equations) => let_go(
            Some(bound),
            ((variable, term), equations),
        ),
    }
}

// Whether a side has more than 5,000 nodes under entries.
fn some_side_is_large(equations: &[Sides], by: &[Entry]) -> bool
    ensures { result ≡ list_any (λ e. is_large e.left || is_large e.right) (sides_under by.now equations.now) }
{
    for sides in equations {
        if is_large_under(&sides.left, by) || is_large_under(&sides.right, by) {
            return true;
        }
    }
    false
}

// The equations under a binding. A side is copied only where the variable occurs in it.
fn sides_under(alloc: Global, equations: Equations, entry: &Entry) -> Result<Equations, Memory>
    ensures { IfOk result (λ es. es ≡ sides_under (entry.now ∷ []) equations) }
{
    let mut under = Sequence::new(alloc);
    for sides in equations.into_vec() {
        let Sides { left, right } = sides;
        let left = side_under(alloc, left, entry)?;
        let right = side_under(alloc, right, entry)?;
        under.push(Sides { left, right })?;
    }
    Ok(under)
}

#[tactic(auto, using(crate::proofs::Later::same_without))]
fn side_under(alloc: Global, side: Term, entry: &Entry) -> Result<Term, Memory>
    ensures { IfOk result (λ t. t ≡ instance_of (entry.now ∷ []) side) }
{
    if occurs(&side, &entry.name, &entry.sort) {
        let under = replaced(alloc, &side, slice::from_ref(entry))?;
        return Ok(under);
    }
    Ok(side)
}

// The bindings, the later ones put into each.
fn resolve(alloc: Global, bound: Entries) -> Result<Entries, PairRefusal>
    ensures { Answers cause result (if list_any (λ b. is_large b.term) (resolve bound)
        then Err a_term_is_too_large else Ok (resolve bound)) }
{
    let mut bound = bound.into_vec();
    let mut left = bound.len();
    while left > 0 {
        left -= 1;
        let term = replaced_within(alloc, &bound[left].term, &bound[left + 1..])?;
        bound[left].term = term;
    }
    Ok(Sequence::from_vec(bound))
}

/// The different variables of two terms, those of the first one first. Each occurrence is compared with all that are
/// found.
pub fn variables_of_both(alloc: Global, left: &Term, right: &Term) -> Result<Variables, Memory>
    ensures { IfOk result (λ vs. vs ≡ variables_of_both left.now right.now) }
{
    let mut found = variables(alloc, left)?;
    add_variables(right, &mut found)?;
    Ok(found)
}

/// The substitution with these entries, which are of different variables.
#[tactic(auto, using(crate::proofs::Unifying::none_before))]
pub fn substitution_of(alloc: Global, entries: Entries) -> Result<Substitution, Memory>
    requires { AllPairs (λ d e. is_entry_of e.name e.sort d ≡ false) entries }
    ensures { IfOk result (λ es. es ≡ entries) }
{
    let mut substitution = Substitution::new(alloc);
    for entry in entries.into_vec() {
        let Entry { name, sort, term } = entry;
        substitution.push(name, sort, term)?;
    }
    Ok(substitution)
}
