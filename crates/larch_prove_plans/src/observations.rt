ghost use Rattle.std.specs.Prelude.{◌≡◌, ◌++◌, map, IfOk, OnOk};
ghost use Rattle.larch_calculus.specs.Observation.{observations_of, places_of_sort};
ghost use Rattle.larch_prove_plans.specs.Observations.{at_places, observation_of};

use larch_base::Memory;
use larch_term::{Operator, Sort};
use std::alloc::Global;

// An observer, with a place of its domain as an index.
#[derive(Drop)]
pub(crate) struct Observed {
    pub(crate) observer: Operator,
    pub(crate) index: usize,
}

// Each observer with each place of the sort, by observer and then by place.
pub(crate) fn observations_of(
    alloc: Global,
    sort: &Sort,
    observers: &[Operator],
) -> Result<Vec<Observed>, Memory>
    ensures { IfOk result (λ ws. map observation_of ws.items ≡ observations_of sort.now observers.now) }
{
    let mut observations = Vec::new(alloc);
    for observer in observers {
        push_observations(sort, observer, &mut observations)?;
    }
    Ok(observations)
}

// Puts an observer with each place of the sort behind others.
fn push_observations(
    sort: &Sort,
    observer: &Operator,
    observations: &mut Vec<Observed>,
) -> Result<(), Memory>
    ensures { OnOk result (map observation_of observations.new.items ≡ map observation_of observations.old.items
        ++ at_places observer.now (places_of_sort sort.now 1 observer.now.domain)) }
{
    let domain = observer.domain();
    for index in 0..domain.len() {
        if domain[index] != *sort {
            continue;
        }
        let observer = observer.copy()?;
        observations.push(Observed { observer, index })?;
    }
    Ok(())
}
