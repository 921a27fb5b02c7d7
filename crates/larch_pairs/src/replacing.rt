ghost use Rattle.std.specs.Prelude.{◌≡◌, ◌+◌, ◌-◌, ◌<◌, ◌^◌, map, min, IfOk, IfSome, None};
ghost use Rattle.larch_base.specs.Answering.{Answers};
ghost use Rattle.larch_pairs.specs.Refusal.{cause};
ghost use Rattle.larch_pairs.specs.Unify.{is_large, within};
ghost use Rattle.larch_term.specs.Substitution.{image, instance_of, substituted_all};
ghost use Rattle.larch_term.specs.Tree.{app, forest_of, nodes, nodes_all, var};

use crate::refusal::PairRefusal;
use larch_base::limits::MAX_TERM_NODES;
use larch_base::{Memory, Name, let_go};
use larch_term::{Entry, Node, Operator, Sort, Substitution, Term, Terms, copy, size};
use std::alloc::Global;

/// The term under a substitution; `TooLarge` where it then has more than 5,000 nodes, which are counted first. It takes
/// time by the size of the term and of what it becomes, and for each variable by the number of entries.
pub fn substitute_within(alloc: Global, term: &Term, by: &Substitution) -> Result<Term, PairRefusal>
    ensures { Answers cause result (within (instance_of by.now term.now)) }
{
    let under = replaced_within(alloc, term, by.as_slice())?;
    Ok(under)
}

// The like for entries.
pub(crate) fn replaced_within(alloc: Global, term: &Term, by: &[Entry]) -> Result<Term, PairRefusal>
    ensures { Answers cause result (within (instance_of by.now term.now)) }
{
    if is_large_under(term, by) {
        return Err(PairRefusal::TooLarge);
    }
    let under = replaced(alloc, term, by)?;
    Ok(under)
}

// Whether a term under entries has more than 5,000 nodes.
pub(crate) fn is_large_under(term: &Term, by: &[Entry]) -> bool
    ensures { result ≡ is_large (instance_of by.now term.now) }
{
    room_behind(term, by, u64::from(MAX_TERM_NODES)).is_none()
}

// The room that is left behind the nodes of a term under entries; `None` where there is too little for them. It ends
// there.
#[cycle(room)]
#[tactic(auto, using(larch_term::specs::Tree::nodes_all_is_sum))]
fn room_behind(term: &Term, by: &[Entry], room: u64) -> Option<u64>
    requires { room < 2 ^ 64 - 1 }
    ensures fits { IfSome result (λ left. left + nodes (instance_of by.now term.now) ≡ room) }
    ensures exceeds { result ≡ None → room < nodes (instance_of by.now term.now) }
{
    match term.node() {
        Node::Var(name, sort) => room.checked_sub(image_size(by, name, sort)),
        Node::App(_, arguments) => {
            if room == 0 {
                return None;
            }
            room_behind_all(arguments.as_slice(), by, room - 1)
        }
    }
}

#[cycle(room)]
#[tactic(auto, using(larch_term::specs::Tree::nodes_all_is_sum))]
fn room_behind_all(terms: &[Term], by: &[Entry], room: u64) -> Option<u64>
    requires { room < 2 ^ 64 - 1 }
    ensures fits { IfSome result (λ left. left + nodes_all (substituted_all by.now (forest_of terms.now)) ≡ room) }
    ensures exceeds { result ≡ None → room < nodes_all (substituted_all by.now (forest_of terms.now)) }
{
    let mut left = room;
    for term in terms {
        let Some(behind) = room_behind(term, by, left) else {
            return None;
        };
        left = behind;
    }
    Some(left)
}

// How many nodes what takes the place of a variable has.
fn image_size(by: &[Entry], name: &Name, sort: &Sort) -> u64
    ensures { result ≡ min (nodes (image by.now name.now sort.now)) (2 ^ 64 - 1) }
{
    for entry in by {
        if entry.name == *name && entry.sort == *sort {
            return size(&entry.term);
        }
    }
    1
}

// The term with all variables replaced at once.
#[cycle(replaced)]
#[tactic(auto, using(larch_term::proofs::TreeLists::substituted_all_forest, larch_term::specs::Tree::nodes_all_is_sum))]
pub(crate) fn replaced(alloc: Global, term: &Term, by: &[Entry]) -> Result<Term, Memory>
    ensures { IfOk result (λ t. t ≡ instance_of by.now term.now) }
{
    match term.node() {
        Node::Var(name, sort) => image(alloc, by, name, sort),
        Node::App(operator, arguments) => match replaced_all(alloc, arguments.as_slice(), by) {
            Ok(arguments) => application(operator, arguments),
            Err(memory) => Err(memory),
        },
    }
}

#[cycle(replaced)]
#[tactic(auto, using(larch_term::specs::Tree::nodes_all_is_sum))]
fn replaced_all(alloc: Global, terms: &[Term], by: &[Entry]) -> Result<Terms, Memory>
    ensures { IfOk result (λ ts. ts ≡ map (instance_of by.now) terms.now) }
{
    let mut items = Vec::with_capacity(alloc, terms.len())?;
    for term in terms {
        let replaced = replaced(alloc, term, by)?;
        items.push(replaced)?;
    }
    Ok(Terms::from_vec(items))
}

// What takes the place of a variable.
fn image(alloc: Global, by: &[Entry], name: &Name, sort: &Sort) -> Result<Term, Memory>
    ensures { IfOk result (λ t. t ≡ image by.now name.now sort.now) }
{
    for entry in by {
        if entry.name == *name && entry.sort == *sort {
            return copy(alloc, &entry.term);
        }
    }
    variable(name, sort)
}

// The variable with this name and sort, from copies of both.
fn variable(name: &Name, sort: &Sort) -> Result<Term, Memory>
    ensures { IfOk result (λ t. t ≡ var name.now sort.now) }
{
    let name = name.copy()?;
    let sort = sort.copy()?;
    Ok(Term::var(name, sort))
}

// The operator with these arguments, from a copy of it.
fn application(operator: &Operator, arguments: Terms) -> Result<Term, Memory>
    ensures { IfOk result (λ t. t ≡ app operator.now (forest_of arguments)) }
{
    match operator.copy() {
        Ok(operator) => Ok(Term::app(operator, arguments)),
        Err(memory) => Err(let_go(memory, arguments)),
    }
}
