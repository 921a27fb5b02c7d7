ghost use Rattle.std.specs.Prelude.{◌≡◌, ◌<◌, IfOk, IfSome, OnOk, All, List, Some, length, map};
ghost use Rattle.std.specs.Option.{option_map};
ghost use Rattle.larch_certificate.specs.declared.line.BoxPart.{BoxPart};
ghost use Rattle.larch_verify_meaning.specs.BoxRules.{fresh_says, freed_result, freed_equation};
ghost use Rattle.larch_verify_meaning.specs.Events.{operators_from};
ghost use Rattle.larch_verify_meaning.specs.Matching.{variable_of};
ghost use Rattle.larch_verify_pool.specs.Freeing.{freed_by};
ghost use Rattle.larch_verify_pool.specs.Pooled.{tree_in, Grows, HasTree};
ghost use Rattle.larch_verify_history.specs.Past.{IsPast, IsBox, IsEquated, IsStated, box_in, equated_in, history_of, stated_in};
ghost use Rattle.larch_verify_box_rules.specs.Variables.{term_of};

use crate::matching::has_constants;
use larch_base::Memory;
use larch_certificate::CodedVar;
use larch_term::Sort;
use larch_verify_decoding::decode_variable;
use larch_verify_history::{Context, Equated, KnownBox, Stated};
use larch_verify_parts::sides_of;
use larch_verify_pool::{NodeNumbers, Pool, free_constants};
use std::alloc::Global;

/// The result of a closed box without hypotheses, with variables in the places of its constants.
pub fn judge_fresh(
    alloc: Global,
    pool: &mut Pool,
    context: &Context<'_>,
    of_box: u64,
    variables: &[CodedVar],
) -> Result<Option<Equated>, Memory>
    requires { IsPast context.now.theory.now pool.old context.now.past.now }
    ensures within { IfOk result (λ o. IfSome o (IsEquated pool.new)) }
    ensures says { IfOk result (λ o. option_map (equated_in pool.new) o
        ≡ fresh_says (history_of pool.old context.now.past.now) of_box variables.now) }
    ensures grows { OnOk result (Grows pool.old pool.new) }
{
    let Some((known, stated)) = context.past.closed_box(of_box) else {
        return Ok(None);
    };
    let made = fresh_result(alloc, pool, known, stated, variables)?;
    Ok(made)
}

// The result of a box without hypotheses, with variables of their sorts in the places of its constants.
fn fresh_result(
    alloc: Global,
    pool: &mut Pool,
    known: &KnownBox,
    stated: &Stated,
    variables: &[CodedVar],
) -> Result<Option<Equated>, Memory>
    requires known { IsBox pool.old known.now }
    requires stated { IsStated pool.old stated.now }
    ensures within { IfOk result (λ o. IfSome o (IsEquated pool.new)) }
    ensures says { IfOk result (λ o. option_map (equated_in pool.new) o
        ≡ freed_result (box_in pool.old known.now) (stated_in pool.old stated.now) (map variable_of variables.now)) }
    ensures grows { OnOk result (Grows pool.old pool.new) }
{
    if !known.hypotheses.as_slice().is_empty() {
        return Ok(None);
    }
    let sorts = sorts_of(alloc, variables)?;
    if !has_constants(known, &sorts) {
        return Ok(None);
    }
    let Some(sides) = sides_of(stated) else {
        return Ok(None);
    };
    let made = freed_sides(alloc, pool, known.number, sides, variables)?;
    Ok(Some(made))
}

// The sorts of variables.
fn sorts_of(alloc: Global, variables: &[CodedVar]) -> Result<Vec<Sort>, Memory>
    ensures { IfOk result (λ ss. ss.items ≡ map (λ v. v.sort) (map variable_of variables.now)) }
{
    let mut sorts = Vec::with_capacity(alloc, variables.len())?;
    for variable in variables {
        let sort = variable.sort.copy()?;
        sorts.push(sort)?;
    }
    Ok(sorts)
}

// The sides of an equation with variables in the places of a box's constants.
fn freed_sides(
    alloc: Global,
    pool: &mut Pool,
    of_box: u64,
    sides: Equated,
    variables: &[CodedVar],
) -> Result<Equated, Memory>
    requires { IsEquated pool.old sides }
    ensures within { IfOk result (λ e. IsEquated pool.new e) }
    ensures says { IfOk result (λ e. (ps : List BoxPart) → length ps ≡ length variables.now
        → Some (equated_in pool.new e) ≡ freed_equation (operators_from of_box 1 ps) (map variable_of variables.now)
        (equated_in pool.old sides)) }
    ensures grows { OnOk result (Grows pool.old pool.new) }
{
    let images = variable_numbers(alloc, pool, variables)?;
    let left = freed_side(alloc, pool, of_box, sides.left, &images)?;
    let right = freed_side(alloc, pool, of_box, sides.right, &images)?;
    Ok(Equated { left, right })
}

// A side with nodes in the places of a box's constants.
fn freed_side(
    alloc: Global,
    pool: &mut Pool,
    of_box: u64,
    side: u32,
    images: &[u32],
) -> Result<u32, Memory>
    requires side { side < length pool.old.trees }
    requires images { All (λ n. n < length pool.old.trees) images.now }
    ensures tree { IfOk result (λ n. HasTree pool.new n
        (freed_by pool.old.trees of_box 1 images.now (tree_in pool.old.trees side))) }
    ensures grows { OnOk result (Grows pool.old pool.new) }
{
    let images = Vec::from_slice(alloc, images)?;
    let number = free_constants(alloc, pool, side, of_box, 1, NodeNumbers::from_vec(images))?;
    Ok(number)
}

// The numbers of variables.
fn variable_numbers(
    alloc: Global,
    pool: &mut Pool,
    variables: &[CodedVar],
) -> Result<Vec<u32>, Memory>
    ensures within { IfOk result (λ ns. All (λ n. n < length pool.new.trees) ns.items) }
    ensures trees { IfOk result (λ ns. map (tree_in pool.new.trees) ns.items
        ≡ map term_of (map variable_of variables.now)) }
    ensures grows { OnOk result (Grows pool.old pool.new) }
{
    let mut numbers = Vec::with_capacity(alloc, variables.len())?;
    for variable in variables {
        let number = decode_variable(pool, &variable.name, &variable.sort)?;
        numbers.push(number)?;
    }
    Ok(numbers)
}
