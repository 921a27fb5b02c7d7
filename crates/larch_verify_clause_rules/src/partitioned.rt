ghost use Rattle.std.specs.Prelude.{◌≡◌, ◌∷◌, [], ◌&&◌, not, All, IfOk, IfSome, OnOk, bytes_eq, map};
ghost use Rattle.std.specs.List.{list_all, list_any};
ghost use Rattle.std.specs.Option.{option_map};
ghost use Rattle.larch_term.specs.Equality.{same_statement};
ghost use Rattle.larch_term.specs.declared.statement.Statement.TheVariants.{Equation};
ghost use Rattle.larch_calculus.specs.Generation.{place_name};
ghost use Rattle.larch_calculus.specs.Observation.{observer_term, observations};
ghost use Rattle.larch_verify_meaning.specs.ClauseRules.{partitioned_says, shows_partitioned};
ghost use Rattle.larch_verify_meaning.specs.Events.{PlainBox};
ghost use Rattle.larch_verify_meaning.specs.Matching.{has_constants, same_statements};
ghost use Rattle.larch_verify_pool.specs.Pooled.{tree_in, Grows};
ghost use Rattle.larch_verify_history.specs.Past.{IsPast, IsBox, IsStated, IsEquated, box_in, stated_in, equated_in, history_of};
ghost use Rattle.larch_verify_history.specs.declared.stated.Stated.TheVariants.{Partitions};
ghost use Rattle.larch_verify_clause_rules.specs.Observers.{observation_of, IsObserver};
ghost use Rattle.larch_verify_clause_rules.specs.Operators.{IsKnown, operators_in};

use crate::constants::two_constants;
use crate::known::{Known, copy_known, own_operators};
use crate::observed::same_observed;
use crate::observers::{Observer, observers_of};
use crate::variables::place_variables;
use larch_base::Memory;
use larch_certificate::BoxPart;
use larch_term::Sort;
use larch_verify_history::{Context, Equated, KnownBox, Stated, same_stated};
use larch_verify_pool::Pool;
use std::alloc::Global;

/// A sort is partitioned by operators of the theory, given by their numbers, if a closed box shows it.
pub fn judge_partitioned(
    alloc: Global,
    pool: &mut Pool,
    context: &Context<'_>,
    of_box: u64,
    sort: &Sort,
    operators: &[u64],
) -> Result<Option<Stated>, Memory>
    requires { IsPast context.now.theory.now pool.old context.now.past.now }
    ensures within { IfOk result (λ o. IfSome o (IsStated pool.new)) }
    ensures says { IfOk result (λ o. option_map (stated_in pool.new) o
        ≡ partitioned_says context.now.theory.now (history_of pool.old context.now.past.now) of_box sort.now
        operators.now) }
    ensures grows { OnOk result (Grows pool.old pool.new) }
{
    let Some((known, stated)) = context.past.closed_box(of_box) else {
        return Ok(None);
    };
    let observers = own_operators(alloc, pool, context, operators)?;
    let Some(observers) = observers else {
        return Ok(None);
    };
    if !take_sort(sort, &observers) {
        return Ok(None);
    }
    let shows = shows_partitioned(alloc, pool, sort, &observers, known, stated)?;
    if !shows {
        return Ok(None);
    }
    let clause = partitioned_by(alloc, sort, &observers)?;
    Ok(Some(clause))
}

// That operators partition a sort.
fn partitioned_by(alloc: Global, sort: &Sort, observers: &[Known]) -> Result<Stated, Memory>
    ensures { IfOk result (λ s. s ≡ Partitions sort.now (operators_in observers.now)) }
{
    let sort = sort.copy()?;
    let operators = copy_known(alloc, observers)?;
    Ok(Stated::Partitions(sort, operators))
}

// Whether the sort stands in the domains of all operators.
fn take_sort(sort: &Sort, operators: &[Known]) -> bool
    ensures { result ≡ list_all (λ o. list_any (bytes_eq sort.now) o.domain) (operators_in operators.now) }
{
    for known in operators {
        if !has_sort(sort, known.operator.domain()) {
            return false;
        }
    }
    true
}

// Whether a sort stands among others.
fn has_sort(sort: &Sort, sorts: &[Sort]) -> bool
    ensures { result ≡ list_any (bytes_eq sort.now) sorts.now }
{
    sorts.iter().any(|other| *sort == *other)
}

// Whether a box shows that operators partition a sort: it has two constants of the sort, supposes that observers show
// the same of them, and its result is that they are equal.
fn shows_partitioned(
    alloc: Global,
    pool: &mut Pool,
    sort: &Sort,
    operators: &[Known],
    known: &KnownBox,
    stated: &Stated,
) -> Result<bool, Memory>
    requires operators { All (IsKnown pool.old) operators.now }
    requires known { IsBox pool.old known.now }
    requires stated { IsStated pool.old stated.now }
    ensures says { IfOk result (λ b. b ≡ shows_partitioned sort.now (operators_in operators.now)
        (box_in pool.old known.now) (stated_in pool.old stated.now)) }
    ensures grows { OnOk result (Grows pool.old pool.new) }
{
    if !has_two_constants(sort, known.parts.as_slice()) {
        return Ok(false);
    }
    let constants = two_constants(alloc, pool, known.number, sort)?;
    let hypotheses = known.hypotheses.as_slice();
    let supposes = supposes_observations(alloc, pool, hypotheses, sort, operators, constants)?;
    if !supposes {
        return Ok(false);
    }
    Ok(same_stated(pool, stated, &Stated::Equal(constants)))
}

// Whether the parts of a box are two constants of a sort.
fn has_two_constants(sort: &Sort, parts: &[BoxPart]) -> bool
    ensures { (b : PlainBox) → b.parts ≡ parts.now → result ≡ has_constants b (sort.now ∷ sort.now ∷ []) }
{
    if parts.len() != 2 {
        return false;
    }
    if !is_constant_of(sort, &parts[0]) {
        return false;
    }
    is_constant_of(sort, &parts[1])
}

fn is_constant_of(sort: &Sort, part: &BoxPart) -> bool
    ensures { result ≡ (not part.now.predicate && bytes_eq part.now.sort sort.now) }
{
    !part.predicate && part.sort == *sort
}

// Whether equations are that the operators, as observers of a sort, show the same of two terms.
fn supposes_observations(
    alloc: Global,
    pool: &mut Pool,
    hypotheses: &[Equated],
    sort: &Sort,
    operators: &[Known],
    sides: Equated,
) -> Result<bool, Memory>
    requires hypotheses { All (IsEquated pool.old) hypotheses.now }
    requires operators { All (IsKnown pool.old) operators.now }
    requires sides { IsEquated pool.old sides }
    ensures says { IfOk result (λ b. b ≡ same_statements (map (equated_in pool.old) hypotheses.now)
        (observations place_name sort.now (operators_in operators.now) (tree_in pool.old.trees sides.left)
        (tree_in pool.old.trees sides.right))) }
    ensures grows { OnOk result (Grows pool.old pool.new) }
{
    let observers = observers_of(alloc, sort, operators)?;
    let supposes = are_observed(alloc, pool, hypotheses, &observers, sides)?;
    Ok(supposes)
}

// Whether equations are that observers, in order, show the same of two terms.
fn are_observed(
    alloc: Global,
    pool: &mut Pool,
    hypotheses: &[Equated],
    observers: &[Observer],
    sides: Equated,
) -> Result<bool, Memory>
    requires hypotheses { All (IsEquated pool.old) hypotheses.now }
    requires observers { All (IsObserver pool.old) observers.now }
    requires sides { IsEquated pool.old sides }
    ensures says { IfOk result (λ b. b ≡ same_statements (map (equated_in pool.old) hypotheses.now)
        (map (λ w. Equation (observer_term place_name w (tree_in pool.old.trees sides.left))
        (observer_term place_name w (tree_in pool.old.trees sides.right))) (map observation_of observers.now))) }
    ensures grows { OnOk result (Grows pool.old pool.new) }
{
    if hypotheses.len() != observers.len() {
        return Ok(false);
    }
    for i in 0..observers.len() {
        let is_observed = is_observed(alloc, pool, hypotheses[i], &observers[i], sides)?;
        if !is_observed {
            return Ok(false);
        }
    }
    Ok(true)
}

// Whether an equation is that an observer shows the same of two terms.
fn is_observed(
    alloc: Global,
    pool: &mut Pool,
    said: Equated,
    observer: &Observer,
    sides: Equated,
) -> Result<bool, Memory>
    requires said { IsEquated pool.old said }
    requires observer { IsObserver pool.old observer.now }
    requires sides { IsEquated pool.old sides }
    ensures says { IfOk result (λ b. b ≡ same_statement (equated_in pool.old said)
        (Equation (observer_term place_name (observation_of observer.now) (tree_in pool.old.trees sides.left))
        (observer_term place_name (observation_of observer.now) (tree_in pool.old.trees sides.right)))) }
    ensures grows { OnOk result (Grows pool.old pool.new) }
{
    let variables = place_variables(alloc, pool, observer.operator.domain())?;
    let same = same_observed(alloc, pool, said, observer, &variables, sides)?;
    Ok(same)
}
