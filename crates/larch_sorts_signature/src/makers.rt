ghost use Rattle.std.specs.Prelude.{◌≡◌, IfOk, OnOk, Some, cond};
ghost use Rattle.std.specs.Option.{option_copied};
ghost use Rattle.larch_term.specs.Equality.{same_operator};
ghost use Rattle.larch_sorts_counts.specs.SortsMeaningFoundFound.TheVariants.{One};
ghost use Rattle.larch_sorts_signature.specs.declared.place.Place.{Place};
ghost use Rattle.larch_sorts_signature.specs.Makers.{AreMakers, made_place, maker_among, maker_at, with_maker};
ghost use Rattle.larch_sorts_signature.specs.Places.{same_place};
ghost use Rattle.larch_sorts_counts.specs.SortsMeaningFound.{merged_by};

use crate::place::Place;
use indexmap::IndexMap;
use larch_base::Memory;
use larch_sorts_counts::from_sorts_meaning::Found;
use larch_term::{Operator, same_operator};
use std::alloc::Global;

/// The operators of a name by the sort that they make of so many arguments: the one, or that there are several.
#[derive(Drop)]
pub(crate) struct Makers {
    kept: IndexMap<Place, Found<Operator>>,
}

impl Makers {
    // What makes each sort among these operators.
    pub(crate) fn of(alloc: Global, operators: &[Operator]) -> Result<Makers, Memory>
        ensures { IfOk result (λ makers. AreMakers makers.kept.entries operators.now) }
    {
        let mut kept = IndexMap::new(alloc);
        for operator in operators {
            note(&mut kept, operator)?;
        }
        Ok(Makers { kept })
    }

    // What makes the sort of a place.
    pub(crate) fn at(&self, place: &Place) -> Result<Option<Found<Operator>>, Memory>
        ensures { IfOk result (λ found. found ≡ maker_at self.now.kept.entries place.now) }
    {
        match self.kept.get(place) {
            None => Ok(None),
            Some(Found::Several) => Ok(Some(Found::Several)),
            Some(Found::One(operator)) => {
                let operator = operator.copy()?;
                Ok(Some(Found::One(operator)))
            }
        }
    }
}

// Notes the sort that an operator makes.
fn note(kept: &mut IndexMap<Place, Found<Operator>>, operator: &Operator) -> Result<(), Memory>
    ensures { OnOk result ((p : Place)
        → maker_at kept.new.entries p ≡ with_maker p (maker_at kept.old.entries p) operator.now) }
{
    let sort = operator.range().copy()?;
    let place = Place {
        arity: operator.domain().len(),
        position: 0,
        sort,
    };
    put(kept, place, operator)?;
    Ok(())
}

// Notes an operator at a place.
#[tactic(auto, using(crate::specs::Places::place_Decides))]
fn put(
    kept: &mut IndexMap<Place, Found<Operator>>,
    place: Place,
    operator: &Operator,
) -> Result<(), Memory>
    ensures { OnOk result ((p : Place)
        → maker_at kept.new.entries p
        ≡ cond (same_place place p) (Some (merged_by same_operator (maker_at kept.old.entries p) (One operator.now)))
        (maker_at kept.old.entries p)) }
{
    let operator = operator.copy()?;
    let now = join_found(kept.get(&place), operator);
    kept.insert(place, now)?;
    Ok(())
}

// What makes the sort of a place among operators.
pub(crate) fn maker_among(
    operators: &[Operator],
    place: &Place,
) -> Result<Option<Found<Operator>>, Memory>
    ensures { IfOk result (λ found. found ≡ maker_among place.now operators.now) }
{
    let mut found = None;
    for operator in operators {
        if makes(operator, place) {
            let operator = operator.copy()?;
            found = Some(join_found(found.as_ref(), operator));
        }
    }
    Ok(found)
}

// Whether an operator makes the sort of a place.
fn makes(operator: &Operator, place: &Place) -> bool
    ensures { result ≡ same_place (made_place operator.now) place.now }
{
    operator.domain().len() == place.arity && 0 == place.position && *operator.range() == place.sort
}

// What was found before together with one operator.
fn join_found(before: Option<&Found<Operator>>, operator: Operator) -> Found<Operator>
    ensures { result ≡ merged_by same_operator (option_copied before.entry) (One operator) }
{
    match before {
        None => Found::One(operator),
        Some(Found::Several) => Found::Several,
        Some(Found::One(first)) => {
            if is_same(first, &operator) {
                Found::One(operator)
            } else {
                Found::Several
            }
        }
    }
}

// Whether two operators are equal, as the definitions test it.
fn is_same(left: &Operator, right: &Operator) -> bool
    ensures { result ≡ same_operator left.now right.now }
{
    same_operator(left, right)
}
