ghost use Rattle.std.specs.Prelude.{◌≡◌, IfOk, OnOk, map};
ghost use Rattle.larch_verify_pool.specs.Pooled.{tree_in, Grows};
ghost use Rattle.larch_verify_pool.specs.Substitution.{AreBindings, AreVariables, entries_of};
ghost use Rattle.larch_verify_history.specs.Past.{IsEquated};
ghost use Rattle.larch_verify_clause_rules.specs.Observers.{unbound, variables_in, truth_for};

use larch_base::Memory;
use larch_verify_history::Equated;
use larch_verify_parts::truth_in;
use larch_verify_pool::{Pool, PoolBinding, substitute};
use std::alloc::Global;

// Whether no variable occurs in one of two terms: both stay as they are with another term in the places of all.
pub(crate) fn are_unbound(
    alloc: Global,
    pool: &mut Pool,
    variables: &[u32],
    sides: Equated,
) -> Result<bool, Memory>
    requires variables { AreVariables pool.old.trees variables.now }
    requires sides { IsEquated pool.old sides }
    ensures says { IfOk result (λ b. b ≡ unbound (tree_in pool.old.trees sides.left)
        (tree_in pool.old.trees sides.right) (variables_in pool.old.trees variables.now)) }
    ensures grows { OnOk result (Grows pool.old pool.new) }
{
    let by = closing(alloc, pool, variables)?;
    let left = substitute(alloc, pool, sides.left, &by)?;
    let right = substitute(alloc, pool, sides.right, &by)?;
    if !pool.same(left, sides.left) {
        return Ok(false);
    }
    Ok(pool.same(right, sides.right))
}

// A term without variables for each variable.
fn closing(alloc: Global, pool: &mut Pool, variables: &[u32]) -> Result<Vec<PoolBinding>, Memory>
    requires { AreVariables pool.old.trees variables.now }
    ensures bindings { IfOk result (λ by. AreBindings pool.new.trees by.items) }
    ensures entries { IfOk result (λ by. entries_of pool.new.trees by.items
        ≡ map truth_for (variables_in pool.old.trees variables.now)) }
    ensures grows { OnOk result (Grows pool.old pool.new) }
{
    let image = truth_in(alloc, pool)?;
    let mut by = Vec::with_capacity(alloc, variables.len())?;
    for variable in variables {
        by.push(PoolBinding {
            variable: *variable,
            image,
        })?;
    }
    Ok(by)
}
