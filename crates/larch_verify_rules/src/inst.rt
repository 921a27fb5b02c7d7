ghost use Rattle.std.specs.Prelude.{◌≡◌, ◌<◌, length, map, IfOk, IfSome, OnOk};
ghost use Rattle.std.specs.Option.{option_map};
ghost use Rattle.larch_verify_meaning.specs.Context.{find_symbol};
ghost use Rattle.larch_verify_meaning.specs.Decoding.{each, decode_binding};
ghost use Rattle.larch_verify_meaning.specs.Rules.{inst_says};
ghost use Rattle.larch_verify_pool.specs.Pooled.{tree_in, Grows};
ghost use Rattle.larch_verify_pool.specs.Substitution.{AreBindings, entries_of};
ghost use Rattle.larch_verify_history.specs.Past.{IsPast, IsEquated, equated_in, history_of};
ghost use Rattle.larch_verify_parts.specs.Apart.{all_apart};
ghost use Rattle.larch_verify_rules.specs.Instances.{IsBinding, entry_of, instance_in};

use larch_base::Memory;
use larch_certificate::Binding;
use larch_verify_decoding::{decode, decode_variable};
use larch_verify_history::{Context, Equated};
use larch_verify_parts::{are_different, equation_of};
use larch_verify_pool::{Pool, substitute};
use std::alloc::Global;

/// The equation of a line with different variables replaced at once by terms of their sorts.
pub fn judge_inst(
    alloc: Global,
    pool: &mut Pool,
    context: &Context<'_>,
    line: u64,
    bindings: &[Binding],
) -> Result<Option<Equated>, Memory>
    requires { IsPast context.now.theory.now pool.old context.now.past.now }
    ensures within { IfOk result (λ o. IfSome o (IsEquated pool.new)) }
    ensures says { IfOk result (λ o. option_map (equated_in pool.new) o
        ≡ inst_says (find_symbol context.now.theory.now (history_of pool.old context.now.past.now))
        (history_of pool.old context.now.past.now) line bindings.now) }
    ensures grows { OnOk result (Grows pool.old pool.new) }
{
    let Some(sides) = equation_of(context.past, line) else {
        return Ok(None);
    };
    let by = decode_bindings(alloc, pool, context, bindings)?;
    let Some(by) = by else {
        return Ok(None);
    };
    pool.are_apart();
    let are_different = binds_different(alloc, &by)?;
    if !are_different {
        return Ok(None);
    }
    let stated = instance(alloc, pool, sides, &by)?;
    Ok(Some(stated))
}

// The equation with all variables replaced at once.
fn instance(
    alloc: Global,
    pool: &mut Pool,
    sides: Equated,
    by: &[larch_verify_pool::PoolBinding],
) -> Result<Equated, Memory>
    requires sides { IsEquated pool.old sides }
    requires by { AreBindings pool.old.trees by.now }
    ensures within { IfOk result (λ e. IsEquated pool.new e) }
    ensures says { IfOk result (λ e. equated_in pool.new e ≡ instance_in pool.old by.now sides) }
    ensures grows { OnOk result (Grows pool.old pool.new) }
{
    let left = substitute(alloc, pool, sides.left, by)?;
    let right = substitute(alloc, pool, sides.right, by)?;
    Ok(Equated { left, right })
}

// What is written for variables, if all of it means something.
fn decode_bindings(
    alloc: Global,
    pool: &mut Pool,
    context: &Context<'_>,
    bindings: &[Binding],
) -> Result<Option<Vec<larch_verify_pool::PoolBinding>>, Memory>
    requires { IsPast context.now.theory.now pool.old context.now.past.now }
    ensures within { IfOk result (λ o. IfSome o (λ by. AreBindings pool.new.trees by.items)) }
    ensures says { IfOk result (λ o. option_map (λ by. entries_of pool.new.trees by.items) o
        ≡ each (decode_binding (find_symbol context.now.theory.now (history_of pool.old context.now.past.now)))
        bindings.now) }
    ensures grows { OnOk result (Grows pool.old pool.new) }
{
    let mut by = Vec::with_capacity(alloc, bindings.len())?;
    for binding in bindings {
        let decoded = decode_binding(alloc, pool, context, binding)?;
        let Some(decoded) = decoded else {
            return Ok(None);
        };
        by.push(decoded)?;
    }
    Ok(Some(by))
}

// What is written for a variable, if it means a term of the variable's sort.
fn decode_binding(
    alloc: Global,
    pool: &mut Pool,
    context: &Context<'_>,
    binding: &Binding,
) -> Result<Option<larch_verify_pool::PoolBinding>, Memory>
    requires { IsPast context.now.theory.now pool.old context.now.past.now }
    ensures within { IfOk result (λ o. IfSome o (IsBinding pool.new.trees)) }
    ensures says { IfOk result (λ o. option_map (entry_of pool.new.trees) o
        ≡ decode_binding (find_symbol context.now.theory.now (history_of pool.old context.now.past.now)) binding.now) }
    ensures grows { OnOk result (Grows pool.old pool.new) }
{
    let image = decode(alloc, pool, context, &binding.term)?;
    let Some(image) = image else {
        return Ok(None);
    };
    if *pool.sort_of(image) != binding.sort {
        return Ok(None);
    }
    let variable = decode_variable(pool, &binding.name, &binding.sort)?;
    Ok(Some(larch_verify_pool::PoolBinding { variable, image }))
}

// Whether no variable is bound twice.
fn binds_different(alloc: Global, by: &[larch_verify_pool::PoolBinding]) -> Result<bool, Memory>
    ensures { IfOk result (λ b. b ≡ all_apart (map (λ b. b.variable) by.now)) }
{
    let mut variables = Vec::with_capacity(alloc, by.len())?;
    for binding in by {
        variables.push(binding.variable)?;
    }
    let answer = are_different(alloc, &variables)?;
    Ok(answer)
}
