ghost use Rattle.std.specs.Prelude.{◌≡◌, ◌<◌, ◌++◌, ◌∷◌, [], IfOk, OnOk, cond, filter, length};
ghost use Rattle.larch_sorts_signature.specs.Domains.{IsByDomain};
ghost use Rattle.larch_sorts_signature.specs.declared.place.Place.{Place};
ghost use Rattle.larch_sorts_signature.specs.Places.{IsPlaced, kept_at, same_place, takes_at};

use crate::domains::{Domains, or_room_for_one};
use crate::place::Place;
use crate::table::Table;
use indexmap::IndexMap;
use larch_base::Memory;
use larch_term::{Operator, Operators, Sort};
use std::alloc::Global;

/// Operators at each of their places, so that those that take a sort are found without the others; and under their
/// domains.
#[derive(Drop)]
pub struct Places {
    kept: IndexMap<Place, Operators>,
    domains: Domains,
}

impl Places {
    // Each of these operators at each of its places, and under its domain.
    pub(crate) fn of(alloc: Global, operators: &[Operator]) -> Result<Places, Memory>
        ensures { IfOk result (λ places. IsPlaced places.kept.entries operators.now
            × IsByDomain places.domains.kept.entries operators.now) }
    {
        let kept = operators_by_place(alloc, operators)?;
        let domains = Domains::of(alloc, operators)?;
        Ok(Places { kept, domains })
    }

    /// The operators under their domains.
    pub fn domains(&self) -> &Domains
        ensures { result.now ≡ self.now.domains }
    {
        &self.domains
    }

    /// The operators with so many arguments that take a sort at a position.
    pub fn at(&self, arity: usize, position: usize, sort: &Sort) -> Result<&[Operator], Memory>
        ensures { IfOk result (λ operators. operators.now
            ≡ kept_at self.now.kept.entries (record { arity = arity; position = position; sort = sort.now })) }
    {
        let sort = sort.copy()?;
        let place = Place {
            arity,
            position,
            sort,
        };
        match self.kept.get(&place) {
            Some(operators) => Ok(operators.as_slice()),
            None => Ok(&[]),
        }
    }

    // How many operators with so many arguments take one of the sorts of a table at a position.
    pub(crate) fn count(
        &self,
        arity: usize,
        position: usize,
        table: &Table,
    ) -> Result<usize, Memory> {
        let mut count = 0usize;
        for sort in table.found.keys() {
            let operators = self.at(arity, position, sort)?;
            count = count.saturating_add(operators.len());
        }
        Ok(count)
    }
}

// Each operator at each of its places.
fn operators_by_place(
    alloc: Global,
    operators: &[Operator],
) -> Result<IndexMap<Place, Operators>, Memory>
    ensures { IfOk result (λ kept. IsPlaced kept.entries operators.now) }
{
    let mut kept = IndexMap::new(alloc);
    for operator in operators {
        keep(alloc, &mut kept, operator)?;
    }
    Ok(kept)
}

// Puts an operator behind those at each of its places.
fn keep(
    alloc: Global,
    kept: &mut IndexMap<Place, Operators>,
    operator: &Operator,
) -> Result<(), Memory>
    ensures { OnOk result ((p : Place)
        → kept_at kept.new.entries p ≡ kept_at kept.old.entries p ++ filter (takes_at p) (operator.now ∷ [])) }
{
    let sorts = operator.domain();
    for position in 0..sorts.len() {
        let sort = sorts[position].copy()?;
        let place = Place {
            arity: sorts.len(),
            position,
            sort,
        };
        put(alloc, kept, place, operator)?;
    }
    Ok(())
}

// Puts an operator behind those at one place.
#[tactic(auto, using(crate::specs::Places::place_Decides))]
fn put(
    alloc: Global,
    kept: &mut IndexMap<Place, Operators>,
    place: Place,
    operator: &Operator,
) -> Result<(), Memory>
    ensures { OnOk result ((p : Place)
        → kept_at kept.new.entries p ≡ kept_at kept.old.entries p ++ cond (same_place place p) (operator.now ∷ []) []) }
{
    let mut operators = or_room_for_one(alloc, kept.swap_remove(&place))?;
    let copied = operator.copy()?;
    operators.push(copied)?;
    kept.insert(place, operators)?;
    Ok(())
}
