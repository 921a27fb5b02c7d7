ghost use Rattle.std.specs.Prelude.{◌≡◌, ◌∷◌, [], IfOk, IfSome};
ghost use Rattle.std.specs.Option.{option_copied};
ghost use Rattle.larch_sorts_signature.specs.Domains.{IsByDomain};
ghost use Rattle.larch_sorts_signature.specs.Makers.{AreMakers, maker_among};
ghost use Rattle.larch_sorts_signature.specs.Overloads.{IsOfConstants};
ghost use Rattle.larch_sorts_signature.specs.Places.{IsPlaced};

use crate::makers::{Makers, maker_among};
use crate::operators::by_operators;
use crate::place::Place;
use crate::places::Places;
use crate::table::Table;
use larch_base::Memory;
use larch_sorts_counts::from_sorts_meaning::Found;
use larch_term::{Operator, Operators};
use std::alloc::Global;
use std::marker::Model;

// So many operators of one name are gone through, more are found by their places or domains.
const FEW: usize = 4;

/// The operators of one name, with what it reads as without arguments. Contracts see them as a list.
pub struct Overloads {
    operators: Operators,
    constants: Table,
    places: Option<Places>,
    makers: Option<Makers>,
}

// By a call, so that a proof takes one apart in one place alone.
impl Drop for Overloads {
    fn drop(self) {
        let Overloads {
            operators: _operators,
            constants: _constants,
            places: _places,
            makers: _makers,
        } = self;
    }
}

impl Model for Overloads {
    ghost use Rattle.std.specs.Prelude.{List, IfSome};
    ghost use Rattle.larch_term.specs.Operator.{PlainOperator};
    ghost use Rattle.larch_sorts_signature.specs.Domains.{IsByDomain};
    ghost use Rattle.larch_sorts_signature.specs.Makers.{AreMakers};
    ghost use Rattle.larch_sorts_signature.specs.Overloads.{IsOfConstants};
    ghost use Rattle.larch_sorts_signature.specs.Places.{IsPlaced};

    ghost Value = { List PlainOperator };

    ghost view = { λ overloads. overloads.operators };

    ghost invariant = { λ overloads. IsOfConstants overloads.constants.found.value.entries overloads.operators
        × IfSome overloads.places (λ places. IsPlaced places.kept.entries overloads.operators
        × IsByDomain places.domains.kept.entries overloads.operators)
        × IfSome overloads.makers (λ makers. AreMakers makers.kept.entries overloads.operators) };
}

impl Overloads {
    // These operators.
    pub(crate) fn of(alloc: Global, operators: Operators) -> Result<Overloads, Memory>
        ensures { IfOk result (λ overloads. overloads ≡ operators) }
    {
        let constants = by_operators(alloc, &[], operators.as_slice())?;
        let places = places_of(alloc, operators.as_slice())?;
        let makers = makers_of(alloc, operators.as_slice())?;
        Ok(Overloads {
            operators,
            constants,
            places,
            makers,
        })
    }

    /// The operators.
    pub fn as_slice(&self) -> &[Operator]
        ensures { result.now ≡ self.now }
    {
        self.operators.as_slice()
    }

    // What the name reads as without arguments.
    pub(crate) fn constants(&self) -> &Table
        ensures { IsOfConstants result.now.found.value.entries self.now }
    {
        &self.constants
    }

    /// The operators at their places, where there are many.
    pub fn places(&self) -> Option<&Places>
        ensures { IfSome result (λ places. IsPlaced places.now.kept.entries self.now
            × IsByDomain places.now.domains.kept.entries self.now) }
    {
        self.places.as_ref()
    }

    // What makes the sort of a place.
    pub(crate) fn maker(&self, place: &Place) -> Result<Option<Found<Operator>>, Memory>
        ensures { IfOk result (λ found. found ≡ maker_among place.now self.now) }
    {
        match &self.makers {
            None => {
                let found = maker_among(self.operators.as_slice(), place)?;
                Ok(found)
            }
            Some(makers) => {
                let found = makers.at(place)?;
                Ok(found)
            }
        }
    }

    /// The operator, if there is only one.
    pub fn only(&self) -> Option<&Operator>
        ensures { IfSome (option_copied result) (λ f. self.now ≡ f ∷ []) }
    {
        match self.operators.as_slice() {
            [operator] => Some(operator),
            _ => None,
        }
    }
}

// Operators at their places, where there are many.
fn places_of(alloc: Global, operators: &[Operator]) -> Result<Option<Places>, Memory>
    ensures { IfOk result (λ found. IfSome found (λ places. IsPlaced places.kept.entries operators.now
        × IsByDomain places.domains.kept.entries operators.now)) }
{
    if operators.len() <= FEW {
        return Ok(None);
    }
    let places = Places::of(alloc, operators)?;
    Ok(Some(places))
}

// What makes each sort among operators, where there are many.
fn makers_of(alloc: Global, operators: &[Operator]) -> Result<Option<Makers>, Memory>
    ensures { IfOk result (λ found. IfSome found (λ makers. AreMakers makers.kept.entries operators.now)) }
{
    if operators.len() <= FEW {
        return Ok(None);
    }
    let makers = Makers::of(alloc, operators)?;
    Ok(Some(makers))
}
