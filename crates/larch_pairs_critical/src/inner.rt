ghost use Rattle.std.specs.Prelude.{◌≡◌, ◌++◌, ◌∷◌, [], drop, map, IfOk, OnOk};
ghost use Rattle.larch_term.specs.Tree.{forest_of};
ghost use Rattle.larch_pairs_critical.specs.Pairs.{inner_places, inner_places_from};

use crate::pair::Place;
use larch_base::{Memory, Sequence};
use larch_term::{Node, Term};
use std::alloc::Global;

// Several places, in order.
pub(crate) type Places = Sequence<Place>;

// The places of a term at which no variable stands, each before those below it, from left to right.
pub(crate) fn inner_places(alloc: Global, term: &Term) -> Result<Places, Memory>
    ensures { IfOk result (λ ps. ps ≡ inner_places term.now) }
{
    let root = Sequence::new(alloc);
    let mut found = Sequence::new(alloc);
    add_places(alloc, term, &root, &mut found)?;
    Ok(found)
}

// Puts a place, where no variable stands there, and the places below it behind others.
#[cycle(places)]
#[tactic(auto, using(larch_term::specs::Tree::nodes_all_is_sum))]
fn add_places(alloc: Global, term: &Term, above: &Place, found: &mut Places) -> Result<(), Memory>
    ensures { OnOk result (found.new ≡ found.old ++ map (λ p. above.now ++ p) (inner_places term.now)) }
{
    if let Node::App(_, arguments) = term.node() {
        let here = copy_place(alloc, above.as_slice())?;
        found.push(here)?;
        add_argument_places(alloc, arguments.as_slice(), above, found)?;
    }
    Ok(())
}

// The like for arguments.
#[cycle(places)]
#[tactic(auto, using(larch_term::specs::Tree::nodes_all_is_sum))]
fn add_argument_places(
    alloc: Global,
    terms: &[Term],
    above: &Place,
    found: &mut Places,
) -> Result<(), Memory>
    ensures { OnOk result (found.new ≡ found.old
        ++ map (λ p. above.now ++ p) (inner_places_from 0 (forest_of terms.now))) }
{
    for i in 0..terms.len() {
        let place = argument_place(alloc, above, i + 1)?;
        add_places(alloc, &terms[i], &place, found)?;
    }
    Ok(())
}

// The place of the argument with a number. Where a place can't have that number, there are more arguments than memory
// holds.
fn argument_place(alloc: Global, above: &Place, number: usize) -> Result<Place, Memory>
    ensures { IfOk result (λ p. p ≡ above.now ++ number ∷ []) }
{
    let Ok(number) = u32::try_from(number) else {
        return Err(Memory);
    };
    let mut place = copy_place(alloc, above.as_slice())?;
    place.push(number)?;
    Ok(place)
}

// The same place once more.
pub(crate) fn copy_place(alloc: Global, place: &[u32]) -> Result<Place, Memory>
    ensures { IfOk result (λ p. p ≡ place.now) }
{
    let numbers = Vec::from_slice(alloc, place)?;
    Ok(Sequence::from_vec(numbers))
}

// The places but the first one.
pub(crate) fn below_root(places: &[Place]) -> &[Place]
    ensures { result.now ≡ drop 1 places.now }
{
    match places {
        [] => places,
        [_root, below @ ..] => below,
    }
}
