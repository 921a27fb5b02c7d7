ghost use Rattle.std.specs.Prelude.{◌≡◌, ◌<◌, All, IfOk, IfSome, OnOk, None, length, map};
ghost use Rattle.std.specs.Option.{option_map};
ghost use Rattle.larch_term.specs.BuiltIn.{bool_sort, built_in};
ghost use Rattle.larch_calculus.specs.Formula.{apply_one, apply_two};
ghost use Rattle.larch_calculus.specs.Generation.{generation_formula, generation_hypotheses};
ghost use Rattle.larch_verify_meaning.specs.Matching.{same_statements};
ghost use Rattle.larch_verify_pool.specs.Pooled.{operator_in, tree_in, Grows, HasTree};
ghost use Rattle.larch_verify_history.specs.Past.{IsEquated, equated_in};
ghost use Rattle.larch_verify_clause_rules.specs.Inheriting.{holding_of, with_term, with_terms, following};
ghost use Rattle.larch_verify_clause_rules.specs.Operators.{IsKnown, operators_in};

use crate::known::Known;
use crate::variables::place_variables;
use larch_base::Memory;
use larch_term::{BuiltIn, Sort, bool_sort};
use larch_verify_history::{Equated, same_equated};
use larch_verify_parts::{apply_built_in, apply_to, truth_in, two_numbers};
use larch_verify_pool::{NodeNumbers, Pool};
use std::alloc::Global;

// Whether equations are the hypotheses of a generation clause: a predicate on the sort holds of what a generator makes
// if it holds of its arguments of the sort.
pub(crate) fn supposes_inheritance(
    alloc: Global,
    pool: &mut Pool,
    hypotheses: &[Equated],
    predicate: u32,
    sort: &Sort,
    generators: &[Known],
) -> Result<bool, Memory>
    requires hypotheses { All (IsEquated pool.old) hypotheses.now }
    requires predicate { predicate < length pool.old.operators }
    requires generators { All (IsKnown pool.old) generators.now }
    ensures says { IfOk result (λ b. b ≡ same_statements (map (equated_in pool.old) hypotheses.now)
        (generation_hypotheses (operator_in pool.old.operators predicate) sort.now (operators_in generators.now))) }
    ensures grows { OnOk result (Grows pool.old pool.new) }
{
    if hypotheses.len() != generators.len() {
        return Ok(false);
    }
    let truth = truth_in(alloc, pool)?;
    for i in 0..generators.len() {
        let formula = formula_in(alloc, pool, predicate, sort, &generators[i])?;
        let inherited = Equated {
            left: formula,
            right: truth,
        };
        if !same_equated(pool, hypotheses[i], inherited) {
            return Ok(false);
        }
    }
    Ok(true)
}

// That a predicate on a sort holds of what a generator makes if it holds of its arguments of the sort.
fn formula_in(
    alloc: Global,
    pool: &mut Pool,
    predicate: u32,
    sort: &Sort,
    generator: &Known,
) -> Result<u32, Memory>
    requires predicate { predicate < length pool.old.operators }
    requires generator { IsKnown pool.old generator.now }
    ensures tree { IfOk result (λ n. HasTree pool.new n
        (generation_formula (operator_in pool.old.operators predicate) sort.now generator.now.operator)) }
    ensures grows { OnOk result (Grows pool.old pool.new) }
{
    let variables = place_variables(alloc, pool, generator.operator.domain())?;
    let premise = premise_in(alloc, pool, predicate, sort, &variables)?;
    let made = pool.apply(generator.number, NodeNumbers::from_vec(variables))?;
    let holds = apply_to(alloc, pool, predicate, made)?;
    let formula = following_from(alloc, pool, premise, holds)?;
    Ok(formula)
}

// That a predicate holds of all the terms that have the sort, if there are any.
fn premise_in(
    alloc: Global,
    pool: &mut Pool,
    predicate: u32,
    sort: &Sort,
    terms: &[u32],
) -> Result<Option<u32>, Memory>
    requires predicate { predicate < length pool.old.operators }
    requires terms { All (λ n. n < length pool.old.trees) terms.now }
    ensures within { IfOk result (λ o. IfSome o (λ n. n < length pool.new.trees)) }
    ensures says { IfOk result (λ o. option_map (tree_in pool.new.trees) o
        ≡ with_terms None (holding_of (operator_in pool.old.operators predicate) sort.now
        (map (tree_in pool.old.trees) terms.now))) }
    ensures grows { OnOk result (Grows pool.old pool.new) }
{
    let mut premise = None;
    for i in 0..terms.len() {
        if pool.sort_of(terms[i]) != sort {
            continue;
        }
        let joined = join_premise(alloc, pool, premise, predicate, terms[i])?;
        premise = Some(joined);
    }
    Ok(premise)
}

// A predicate of a term behind what holds, if there is something.
fn join_premise(
    alloc: Global,
    pool: &mut Pool,
    premise: Option<u32>,
    predicate: u32,
    term: u32,
) -> Result<u32, Memory>
    requires premise { IfSome premise (λ n. n < length pool.old.trees) }
    requires predicate { predicate < length pool.old.operators }
    requires term { term < length pool.old.trees }
    ensures tree { IfOk result (λ n. HasTree pool.new n
        (with_term (option_map (tree_in pool.old.trees) premise)
        (apply_one (operator_in pool.old.operators predicate) (tree_in pool.old.trees term)))) }
    ensures grows { OnOk result (Grows pool.old pool.new) }
{
    let holds = apply_to(alloc, pool, predicate, term)?;
    let Some(before) = premise else {
        return Ok(holds);
    };
    let joined = join(alloc, pool, BuiltIn::And, before, holds)?;
    Ok(joined)
}

// What follows from a premise, if there is one.
fn following_from(
    alloc: Global,
    pool: &mut Pool,
    premise: Option<u32>,
    term: u32,
) -> Result<u32, Memory>
    requires premise { IfSome premise (λ n. n < length pool.old.trees) }
    requires term { term < length pool.old.trees }
    ensures tree { IfOk result (λ n. HasTree pool.new n
        (following (option_map (tree_in pool.old.trees) premise) (tree_in pool.old.trees term))) }
    ensures grows { OnOk result (Grows pool.old pool.new) }
{
    let Some(premise) = premise else {
        return Ok(term);
    };
    let formula = join(alloc, pool, BuiltIn::Implies, premise, term)?;
    Ok(formula)
}

// Two truth values joined by a built-in operator.
fn join(alloc: Global, pool: &mut Pool, kind: BuiltIn, left: u32, right: u32) -> Result<u32, Memory>
    requires left { left < length pool.old.trees }
    requires right { right < length pool.old.trees }
    ensures tree { IfOk result (λ n. HasTree pool.new n
        (apply_two (built_in kind bool_sort) (tree_in pool.old.trees left) (tree_in pool.old.trees right))) }
    ensures grows { OnOk result (Grows pool.old pool.new) }
{
    let sort = bool_sort(alloc)?;
    let arguments = two_numbers(alloc, left, right)?;
    let number = apply_built_in(alloc, pool, kind, &sort, arguments)?;
    Ok(number)
}
