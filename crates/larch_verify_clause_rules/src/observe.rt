ghost use Rattle.std.specs.Prelude.{◌≡◌, ◌<◌, if◌then◌else◌, All, IfOk, IfSome, OnOk, Some, None, length, map, reverse};
ghost use Rattle.std.specs.List.{remove};
ghost use Rattle.std.specs.Option.{option_map};
ghost use Rattle.larch_verify_meaning.specs.ClauseRules.{observe_says, observed_equal, shows_same, show_same};
ghost use Rattle.larch_verify_meaning.specs.Context.{find_symbol};
ghost use Rattle.larch_verify_pool.specs.Pooled.{tree_in, Grows};
ghost use Rattle.larch_verify_pool.specs.Substitution.{AreVariables};
ghost use Rattle.larch_verify_history.specs.Past.{IsPast, IsHappened, IsIndexed, IsEquated, equated_in, stated_in, history_of};
ghost use Rattle.larch_verify_clause_rules.specs.Observers.{observation_of, IsObserver, variables_in, some_unbound};
ghost use Rattle.larch_verify_clause_rules.specs.Observers.{if_different};

use crate::known::intern_operators;
use crate::observed::same_observed;
use crate::observers::{Observer, observers_of};
use crate::unbound::are_unbound;
use crate::variables::argument_variables;
use larch_base::Memory;
use larch_certificate::CodedEquation;
use larch_verify_decoding::decode_equation;
use larch_verify_history::laws::past_stays;
use larch_verify_history::{Context, Equated, KeptHistory, Stated};
use larch_verify_parts::{are_different, equation_of};
use larch_verify_pool::Pool;
use std::alloc::Global;

/// An equation by what is observed: a line says what partitions the sort of its sides, and for each observation, in
/// order, a line says that it shows the same of both.
pub fn judge_observe(
    alloc: Global,
    pool: &mut Pool,
    context: &Context<'_>,
    clause: u64,
    equation: &CodedEquation,
    lines: &[u64],
) -> Result<Option<Equated>, Memory>
    requires { IsPast context.now.theory.now pool.old context.now.past.now }
    ensures within { IfOk result (λ o. IfSome o (IsEquated pool.new)) }
    ensures says { IfOk result (λ o. option_map (equated_in pool.new) o
        ≡ observe_says (find_symbol context.now.theory.now (history_of pool.old context.now.past.now))
        (history_of pool.old context.now.past.now) clause equation.now lines.now) }
    ensures grows { OnOk result (Grows pool.old pool.new) }
{
    let sides = decode_equation(alloc, pool, context, equation)?;
    let Some(sides) = sides else {
        return Ok(None);
    };
    let Some(clause) = context.past.line(clause) else {
        return Ok(None);
    };
    past_stays();
    let shown = observed_equal(alloc, pool, context.past, sides, clause, lines)?;
    if !shown {
        return Ok(None);
    }
    Ok(Some(sides))
}

// Whether a statement says what partitions the sort of two terms, and all observers show the same of them.
fn observed_equal(
    alloc: Global,
    pool: &mut Pool,
    past: &KeptHistory,
    sides: Equated,
    clause: &Stated,
    lines: &[u64],
) -> Result<bool, Memory>
    requires index { IsIndexed past.now.places.items (reverse past.now.events.items) }
    requires within { All (IsHappened pool.old) past.now.events.items }
    requires sides { IsEquated pool.old sides }
    ensures says { IfOk result (λ b. observed_equal (history_of pool.old past.now) lines.now
        (equated_in pool.old sides) (stated_in pool.old clause.now)
        ≡ (if b then Some (equated_in pool.old sides) else None)) }
    ensures grows { OnOk result (Grows pool.old pool.new) }
{
    match clause {
        Stated::Equal(_) => Ok(false),
        Stated::Generates(_, _) => Ok(false),
        Stated::Partitions(sort, operators) => {
            if pool.sort_of(sides.left) != sort {
                return Ok(false);
            }
            let known = intern_operators(alloc, pool, operators.as_slice())?;
            let observers = observers_of(alloc, sort, &known)?;
            let shown = show_same(alloc, pool, past, sides, &observers, lines)?;
            Ok(shown)
        }
    }
}

// Whether lines say of observations, in order, that they show the same of two terms, and there is no further one.
fn show_same(
    alloc: Global,
    pool: &mut Pool,
    past: &KeptHistory,
    sides: Equated,
    observers: &[Observer],
    lines: &[u64],
) -> Result<bool, Memory>
    requires index { IsIndexed past.now.places.items (reverse past.now.events.items) }
    requires within { All (IsHappened pool.old) past.now.events.items }
    requires sides { IsEquated pool.old sides }
    requires observers { All (IsObserver pool.old) observers.now }
    ensures says { IfOk result (λ b. b ≡ show_same (history_of pool.old past.now) (tree_in pool.old.trees sides.left)
        (tree_in pool.old.trees sides.right) (map observation_of observers.now) lines.now) }
    ensures grows { OnOk result (Grows pool.old pool.new) }
{
    if observers.len() != lines.len() {
        return Ok(false);
    }
    let mut others = Vec::new(alloc);
    for i in 0..observers.len() {
        let Some(said) = equation_of(past, lines[i]) else {
            return Ok(false);
        };
        let shown = shows_same(alloc, pool, said, &observers[i], sides)?;
        let Some(shown) = shown else {
            return Ok(false);
        };
        others.extend_from_slice(&shown)?;
    }
    let answer = are_unbound(alloc, pool, &others, sides)?;
    Ok(answer)
}

// The different variables at an observer's other places, if an equation says with these that it shows the same of two
// terms. Whether one of them occurs in the terms isn't looked at.
fn shows_same(
    alloc: Global,
    pool: &mut Pool,
    said: Equated,
    observer: &Observer,
    sides: Equated,
) -> Result<Option<Vec<u32>>, Memory>
    requires said { IsEquated pool.old said }
    requires observer { IsObserver pool.old observer.now }
    requires sides { IsEquated pool.old sides }
    ensures others { IfOk result (λ o. IfSome o (λ vs. AreVariables pool.new.trees vs.items)) }
    ensures says { IfOk result (λ o. shows_same (tree_in pool.old.trees sides.left)
        (tree_in pool.old.trees sides.right) (observation_of observer.now) (equated_in pool.old said)
        ≡ some_unbound (tree_in pool.old.trees sides.left) (tree_in pool.old.trees sides.right)
        (option_map (λ vs. variables_in pool.new.trees vs.items) o)) }
    ensures grows { OnOk result (Grows pool.old pool.new) }
{
    let domain = observer.operator.domain();
    let variables = argument_variables(alloc, pool, said.left, domain)?;
    let same = same_observed(alloc, pool, said, observer, &variables, sides)?;
    if !same {
        return Ok(None);
    }
    let others = different_others(alloc, pool, variables, observer.index)?;
    Ok(others)
}

// Variables without the one at an index, if none of them stands twice.
fn different_others(
    alloc: Global,
    pool: &Pool,
    variables: Vec<u32>,
    index: usize,
) -> Result<Option<Vec<u32>>, Memory>
    requires variables { AreVariables pool.now.trees variables.items }
    requires index { index < length variables.items }
    ensures others { IfOk result (λ o. IfSome o (λ vs. AreVariables pool.now.trees vs.items)) }
    ensures says { IfOk result (λ o. option_map (λ vs. variables_in pool.now.trees vs.items) o
        ≡ if_different (remove (variables_in pool.now.trees variables.items) index)) }
{
    let mut others = variables;
    let _ = others.remove(index);
    pool.are_apart();
    let are_different = are_different(alloc, &others)?;
    if !are_different {
        return Ok(None);
    }
    Ok(Some(others))
}
