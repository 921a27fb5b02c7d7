ghost use Rattle.std.specs.Prelude.{◌≡◌, ◌<◌, ℕ, nat_eq, length, All, Contains, IsTrue, IfOk, OnOk, ◌↔◌};
ghost use Rattle.std.specs.HashMap.{get};
ghost use Rattle.larch_term.specs.Substitution.{instance_of};
ghost use Rattle.larch_term.specs.Variable.{occurrences};
ghost use Rattle.larch_verify_pool.specs.Pooled.{tree_in, Grows, HasTree};
ghost use Rattle.larch_verify_pool.specs.Substitution.{found, entries_of, variable_of, IsVar, AreBindings, AreVariables};

use crate::exchanging::{Rule, exchange};
use crate::node::PoolNode;
use crate::pool::Pool;
use larch_base::Memory;
use std::alloc::Global;
use std::collections::HashMap;

/// The number of a variable, and that of what takes its place.
#[derive(Clone, Copy, Drop)]
pub struct PoolBinding {
    pub variable: u32,
    pub image: u32,
}

/// Whether numbers of variables are bound to numbers of nodes. It takes no memory.
pub fn are_bindings(pool: &Pool, by: &[PoolBinding]) -> bool
    ensures { IsTrue result ↔ AreBindings pool.now.trees by.now }
{
    for binding in by {
        if !is_binding(pool, *binding) {
            return false;
        }
    }
    true
}

fn is_binding(pool: &Pool, binding: PoolBinding) -> bool
    ensures { IsTrue result ↔ ((binding.variable < length pool.now.trees) × (binding.image < length pool.now.trees)
        × IsVar (tree_in pool.now.trees binding.variable)) }
{
    (binding.variable as usize) < pool.len()
        && (binding.image as usize) < pool.len()
        && is_variable(pool, binding.variable)
}

/// Whether a number is that of a variable. It takes no memory.
pub fn is_variable(pool: &Pool, number: u32) -> bool
    requires { number < length pool.now.trees }
    ensures { IsTrue result ↔ IsVar (tree_in pool.now.trees number) }
{
    match pool.node(number) {
        PoolNode::Var(_, _) => true,
        PoolNode::App(_, _) => false,
    }
}

/// The number of a term with all variables replaced at once; the first binding of a variable counts. It takes time
/// and memory by the different subterms of the term, not by its size.
pub fn substitute(
    alloc: Global,
    pool: &mut Pool,
    term: u32,
    by: &[PoolBinding],
) -> Result<u32, Memory>
    requires term { term < length pool.old.trees }
    requires by { AreBindings pool.old.trees by.now }
    ensures tree { IfOk result (λ n. HasTree pool.new n
        (instance_of (entries_of pool.old.trees by.now) (tree_in pool.old.trees term))) }
    ensures grows { OnOk result (Grows pool.old pool.new) }
    ensures operators { OnOk result (pool.new.operators ≡ pool.old.operators) }
{
    pool.are_apart();
    let images = image_table(alloc, by)?;
    let number = exchange(alloc, pool, term, &Rule::Table(images))?;
    Ok(number)
}

// The bindings as a table. The first binding of a number counts.
fn image_table(alloc: Global, by: &[PoolBinding]) -> Result<HashMap<u32, u32>, Memory>
    ensures { IfOk result (λ table. (q : ℕ) → get nat_eq table q ≡ found by.now q) }
{
    let mut table = HashMap::new(alloc);
    for i in 0..by.len() {
        let binding = by[by.len() - 1 - i];
        table.insert(binding.variable, binding.image)?;
    }
    Ok(table)
}
