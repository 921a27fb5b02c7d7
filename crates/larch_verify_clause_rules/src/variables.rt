ghost use Rattle.std.specs.Prelude.{◌≡◌, ◌<◌, All, IfOk, OnOk, Some, length, map};
ghost use Rattle.larch_term.specs.Tree.{var};
ghost use Rattle.larch_calculus.specs.Generation.{place_name};
ghost use Rattle.larch_verify_meaning.specs.Matching.{argument_name, variable_name};
ghost use Rattle.larch_verify_pool.specs.Pooled.{tree_in, Grows, HasTree};
ghost use Rattle.larch_verify_clause_rules.specs.Naming.{variables_named, variable_term};

use larch_base::{Memory, Name};
use larch_term::Sort;
use larch_verify_pool::{Pool, PoolNode, at};
use std::alloc::Global;

// The name of the variable that is the argument with a number; no bytes where there is none.
pub(crate) fn argument_name(
    alloc: Global,
    pool: &Pool,
    term: u32,
    number: u64,
) -> Result<Name, Memory>
    requires { term < length pool.now.trees }
    ensures { IfOk result (λ n. n ≡ argument_name (tree_in pool.now.trees term) number) }
{
    let Some(argument) = at(pool, term, &[number]) else {
        let none = Name::new(alloc, b"")?;
        return Ok(none);
    };
    let name = variable_name(alloc, pool, argument)?;
    Ok(name)
}

// The name of a variable; no bytes where the term is none.
fn variable_name(alloc: Global, pool: &Pool, term: u32) -> Result<Name, Memory>
    requires { term < length pool.now.trees }
    ensures { IfOk result (λ n. n ≡ variable_name (Some (tree_in pool.now.trees term))) }
{
    match pool.node(term) {
        PoolNode::Var(name, _) => {
            let name = name.copy()?;
            Ok(name)
        }
        PoolNode::App(_, _) => {
            let none = Name::new(alloc, b"")?;
            Ok(none)
        }
    }
}

// Variables of these sorts, named as the arguments of a term are.
pub(crate) fn argument_variables(
    alloc: Global,
    pool: &mut Pool,
    term: u32,
    sorts: &[Sort],
) -> Result<Vec<u32>, Memory>
    requires { term < length pool.old.trees }
    ensures within { IfOk result (λ vs. All (λ n. n < length pool.new.trees) vs.items) }
    ensures trees { IfOk result (λ vs. map (tree_in pool.new.trees) vs.items
        ≡ map variable_term (variables_named (argument_name (tree_in pool.old.trees term)) 1 sorts.now)) }
    ensures grows { OnOk result (Grows pool.old pool.new) }
{
    let mut variables = Vec::with_capacity(alloc, sorts.len())?;
    for i in 0..sorts.len() {
        let name = argument_name(alloc, pool, term, i as u64 + 1)?;
        let sort = sorts[i].copy()?;
        let variable = pool.var(name, sort)?;
        variables.push(variable)?;
    }
    Ok(variables)
}

// Variables of these sorts, named by their places.
pub(crate) fn place_variables(
    alloc: Global,
    pool: &mut Pool,
    sorts: &[Sort],
) -> Result<Vec<u32>, Memory>
    ensures within { IfOk result (λ vs. All (λ n. n < length pool.new.trees) vs.items) }
    ensures trees { IfOk result (λ vs. map (tree_in pool.new.trees) vs.items
        ≡ map variable_term (variables_named place_name 1 sorts.now)) }
    ensures grows { OnOk result (Grows pool.old pool.new) }
{
    let mut variables = Vec::with_capacity(alloc, sorts.len())?;
    for i in 0..sorts.len() {
        let variable = place_variable(alloc, pool, i + 1, &sorts[i])?;
        variables.push(variable)?;
    }
    Ok(variables)
}

// The variable of a sort that is named by a place.
fn place_variable(alloc: Global, pool: &mut Pool, place: usize, sort: &Sort) -> Result<u32, Memory>
    ensures tree { IfOk result (λ n. HasTree pool.new n (var (place_name place) sort.now)) }
    ensures grows { OnOk result (Grows pool.old pool.new) }
{
    let text = format!(in alloc; "x{place}")?;
    let name = Name::new(alloc, text.as_bytes())?;
    let sort = sort.copy()?;
    let variable = pool.var(name, sort)?;
    Ok(variable)
}
