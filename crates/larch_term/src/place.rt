ghost use Rattle.std.specs.Prelude.{◌≡◌, ◌↔◌, IfOk, IsErrOf, None, option_map};
ghost use Rattle.larch_term.specs.Place.{at, argument, put, put_in};
ghost use Rattle.larch_term.specs.Tree.{forest_of};
ghost use Rattle.larch_term.specs.declared.place.ReplaceRefusal.TheVariants.{Memory as out_of_memory};

use crate::copying::{copy, copy_variable};
use crate::term::{Node, Term, Terms};
use larch_base::Memory;
use std::alloc::Global;
use thiserror::Error;

/// The subterm at a place: argument numbers, counted from 1, from the root down. `None` where the term has no
/// such place. It takes no memory.
pub fn at<'a>(term: &'a Term, place: &[u32]) -> Option<&'a Term>
    ensures { option_map (λ t. t.now) result ≡ at term.now place.now }
{
    let mut here = term;
    for number in place {
        let Node::App(_, arguments) = &here.node else {
            return None;
        };
        here = argument(arguments, *number)?;
    }
    Some(here)
}

// The argument with a number, counted from 1.
#[tactic(auto, using(crate::proofs::TreeLists::argument_zero))]
fn argument(arguments: &Terms, number: u32) -> Option<&Term>
    ensures { option_map (λ t. t.now) result ≡ argument (forest_of arguments.now) number }
{
    if number == 0 {
        return None;
    }
    arguments.items.get(number as usize - 1)
}

/// Why nothing is put at a place.
#[derive(Clone, Copy, Debug, PartialEq, Eq, Error)]
pub enum ReplaceRefusal {
    /// The term has no such place.
    #[error("no such place")]
    NoPlace,
    /// Out of memory.
    #[error("out of memory")]
    Memory,
}

impl From<Memory> for ReplaceRefusal {
    ghost from_gives = { λ _ refusal. refusal ≡ out_of_memory };

    fn from(_memory: Memory) -> ReplaceRefusal {
        ReplaceRefusal::Memory
    }
}

/// The term with another one in the stead of what stands at a place.
pub fn replace_at(
    alloc: Global,
    term: &Term,
    place: &[u32],
    by: &Term,
) -> Result<Term, ReplaceRefusal>
    ensures ok { IfOk result (λ t. t ≡ put term.now place.now by.now) }
    ensures no_place { IsErrOf result ReplaceRefusal.NoPlace ↔ (at term.now place.now ≡ None) }
{
    if at(term, place).is_none() {
        return Err(ReplaceRefusal::NoPlace);
    }
    let replaced = put(alloc, term, place, by)?;
    Ok(replaced)
}

#[cycle(put)]
#[tactic(auto, using(crate::proofs::TreeLists::put_below))]
fn put(alloc: Global, term: &Term, place: &[u32], by: &Term) -> Result<Term, Memory>
    ensures { IfOk result (λ t. t ≡ put term.now place.now by.now) }
{
    let [number, rest @ ..] = place else {
        let copied = copy(alloc, by)?;
        return Ok(copied);
    };
    match &term.node {
        Node::Var(name, sort) => copy_variable(name, sort),
        Node::App(operator, arguments) => {
            let arguments = put_in(alloc, arguments, *number, rest, by)?;
            let operator = operator.copy()?;
            Ok(Term::app(operator, arguments))
        }
    }
}

// The arguments with another term at a place of the argument with a number.
#[cycle(put)]
#[tactic(auto, using(crate::proofs::TreeLists::put_in_cons, crate::proofs::TreeLists::put_in_forest))]
fn put_in(
    alloc: Global,
    terms: &Terms,
    number: u32,
    place: &[u32],
    by: &Term,
) -> Result<Terms, Memory>
    ensures { IfOk result (λ ts. forest_of ts ≡ put_in (forest_of terms.now) number place.now by.now) }
{
    let mut items = Vec::with_capacity(alloc, terms.items.len())?;
    let mut left = number;
    for term in &terms.items {
        let item = if left == 1 {
            put(alloc, term, place, by)?
        } else {
            copy(alloc, term)?
        };
        items.push(item)?;
        left = left.saturating_sub(1);
    }
    Ok(Terms::from_vec(items))
}
