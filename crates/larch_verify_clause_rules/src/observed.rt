ghost use Rattle.std.specs.Prelude.{◌≡◌, ◌<◌, ℕ, List, All, IfOk, OnOk, length, map};
ghost use Rattle.std.specs.List.{slice_set};
ghost use Rattle.larch_term.specs.Equality.{same_statement};
ghost use Rattle.larch_term.specs.Tree.{app, forest_of};
ghost use Rattle.larch_term.specs.declared.statement.Statement.TheVariants.{Equation};
ghost use Rattle.larch_calculus.specs.Observation.{observer_term};
ghost use Rattle.larch_verify_pool.specs.Pooled.{tree_in, Grows, HasTree};
ghost use Rattle.larch_verify_history.specs.Past.{IsEquated, equated_in};
ghost use Rattle.larch_verify_clause_rules.specs.Naming.{variables_named, variable_term};
ghost use Rattle.larch_verify_clause_rules.specs.Observers.{observation_of, IsObserver};

use crate::observers::Observer;
use larch_base::Memory;
use larch_verify_history::{Equated, same_equated};
use larch_verify_pool::{NodeNumbers, Pool};
use std::alloc::Global;

// Whether an equation says that an observer shows the same of two terms, with variables at its other places.
pub(crate) fn same_observed(
    alloc: Global,
    pool: &mut Pool,
    said: Equated,
    observer: &Observer,
    variables: &[u32],
    sides: Equated,
) -> Result<bool, Memory>
    requires said { IsEquated pool.old said }
    requires observer { IsObserver pool.old observer.now }
    requires variables { All (λ n. n < length pool.old.trees) variables.now }
    requires index { observer.now.index < length variables.now }
    requires sides { IsEquated pool.old sides }
    ensures says { IfOk result (λ b. (names : ℕ → List ℕ)
        → map (tree_in pool.old.trees) variables.now
        ≡ map variable_term (variables_named names 1 observer.now.operator.domain)
        → b ≡ same_statement (equated_in pool.old said)
        (Equation (observer_term names (observation_of observer.now) (tree_in pool.old.trees sides.left))
        (observer_term names (observation_of observer.now) (tree_in pool.old.trees sides.right)))) }
    ensures grows { OnOk result (Grows pool.old pool.new) }
{
    let left = observed_in(alloc, pool, observer, variables, sides.left)?;
    let right = observed_in(alloc, pool, observer, variables, sides.right)?;
    Ok(same_equated(pool, said, Equated { left, right }))
}

// An observer with a term at its place, and variables at the others.
fn observed_in(
    alloc: Global,
    pool: &mut Pool,
    observer: &Observer,
    variables: &[u32],
    term: u32,
) -> Result<u32, Memory>
    requires observer { IsObserver pool.old observer.now }
    requires variables { All (λ n. n < length pool.old.trees) variables.now }
    requires index { observer.now.index < length variables.now }
    requires term { term < length pool.old.trees }
    ensures tree { IfOk result (λ n. HasTree pool.new n
        (app observer.now.operator (forest_of
        (map (tree_in pool.old.trees) (slice_set variables.now observer.now.index term))))) }
    ensures grows { OnOk result (Grows pool.old pool.new) }
{
    let mut arguments = Vec::from_slice(alloc, variables)?;
    arguments[observer.index] = term;
    let number = pool.apply(observer.number, NodeNumbers::from_vec(arguments))?;
    Ok(number)
}
