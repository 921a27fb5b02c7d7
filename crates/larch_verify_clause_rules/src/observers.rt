ghost use Rattle.std.specs.Prelude.{◌≡◌, ◌++◌, All, IfOk, OnOk, length, map, slice_get, Some};
ghost use Rattle.larch_calculus.specs.Observation.{observations_of, places_of_sort};
ghost use Rattle.larch_verify_pool.specs.Pooled.{Pooled};
ghost use Rattle.larch_verify_clause_rules.specs.Observers.{observation_of, IsObserver};
ghost use Rattle.larch_verify_clause_rules.specs.Operators.{IsKnown, operators_in};

use crate::known::Known;
use larch_base::Memory;
use larch_term::{Operator, Sort};
use std::alloc::Global;

// An operator with its number in the pool, and the index of a place in its domain.
#[derive(Drop)]
pub(crate) struct Observer {
    pub(crate) operator: Operator,
    pub(crate) number: u32,
    pub(crate) index: usize,
}

// Each operator with each place of the sort, by operator and then by place.
pub(crate) fn observers_of(
    alloc: Global,
    sort: &Sort,
    operators: &[Known],
) -> Result<Vec<Observer>, Memory>
    ensures says { IfOk result (λ os. map observation_of os.items
        ≡ observations_of sort.now (operators_in operators.now)) }
    ensures known { IfOk result (λ os. (p : Pooled) → All (IsKnown p) operators.now → All (IsObserver p) os.items) }
{
    let mut observers = Vec::new(alloc);
    for known in operators {
        push_observers(sort, known, &mut observers)?;
    }
    Ok(observers)
}

// Puts an operator with each place of the sort behind others.
fn push_observers(sort: &Sort, known: &Known, observers: &mut Vec<Observer>) -> Result<(), Memory>
    ensures says { OnOk result (map observation_of observers.new.items ≡ map observation_of observers.old.items
        ++ map (λ k. record { observer = known.now.operator; place = k })
        (places_of_sort sort.now 1 known.now.operator.domain)) }
    ensures known { OnOk result ((p : Pooled) → IsKnown p known.now → All (IsObserver p) observers.old.items
        → All (IsObserver p) observers.new.items) }
{
    let domain = known.operator.domain();
    for index in 0..domain.len() {
        if domain[index] != *sort {
            continue;
        }
        let operator = known.operator.copy()?;
        observers.push(Observer {
            operator,
            number: known.number,
            index,
        })?;
    }
    Ok(())
}
