ghost use Rattle.std.specs.Prelude.{◌≡◌, ◌<◌, [], ◌∷◌, IfOk, OnOk, All, length, map};
ghost use Rattle.larch_term.specs.BuiltIn.{built_in};
ghost use Rattle.larch_term.specs.Sorts.{sort_of};
ghost use Rattle.larch_term.specs.Tree.{app, forest_of};
ghost use Rattle.larch_term.specs.Truth.{truth};
ghost use Rattle.larch_verify_meaning.specs.CalculusFormula.{apply_one, equality, falsity};
ghost use Rattle.larch_verify_pool.specs.Pooled.{operator_in, tree_in, Grows, HasTree};

use larch_base::Memory;
use larch_term::{BuiltIn, Sort, bool_sort};
use larch_verify_pool::{NodeNumbers, Pool, intern_operator};
use std::alloc::Global;

/// The application of a built-in operator at a sort.
pub fn apply_built_in(
    alloc: Global,
    pool: &mut Pool,
    kind: BuiltIn,
    sort: &Sort,
    arguments: NodeNumbers,
) -> Result<u32, Memory>
    requires { All (λ n. n < length pool.old.trees) arguments }
    ensures tree { IfOk result (λ n. HasTree pool.new n
        (app (built_in kind sort.now) (forest_of (map (tree_in pool.old.trees) arguments)))) }
    ensures grows { OnOk result (Grows pool.old pool.new) }
{
    let operator = kind.operator(alloc, sort)?;
    let operator = intern_operator(alloc, pool, &operator)?;
    let number = pool.apply(operator, arguments)?;
    Ok(number)
}

/// The application of an operator to one argument.
pub fn apply_to(alloc: Global, pool: &mut Pool, operator: u32, argument: u32) -> Result<u32, Memory>
    requires operator { operator < length pool.old.operators }
    requires argument { argument < length pool.old.trees }
    ensures tree { IfOk result (λ n. HasTree pool.new n
        (apply_one (operator_in pool.old.operators operator) (tree_in pool.old.trees argument))) }
    ensures grows { OnOk result (Grows pool.old pool.new) }
{
    let mut arguments = Vec::with_capacity(alloc, 1)?;
    arguments.push(argument)?;
    let number = pool.apply(operator, NodeNumbers::from_vec(arguments))?;
    Ok(number)
}

/// The constant true.
pub fn truth_in(alloc: Global, pool: &mut Pool) -> Result<u32, Memory>
    ensures tree { IfOk result (λ n. HasTree pool.new n truth) }
    ensures grows { OnOk result (Grows pool.old pool.new) }
{
    let sort = bool_sort(alloc)?;
    let none = NodeNumbers::from_vec(Vec::new(alloc));
    let number = apply_built_in(alloc, pool, BuiltIn::True, &sort, none)?;
    Ok(number)
}

/// The constant false.
pub fn falsity_in(alloc: Global, pool: &mut Pool) -> Result<u32, Memory>
    ensures tree { IfOk result (λ n. HasTree pool.new n falsity) }
    ensures grows { OnOk result (Grows pool.old pool.new) }
{
    let sort = bool_sort(alloc)?;
    let none = NodeNumbers::from_vec(Vec::new(alloc));
    let number = apply_built_in(alloc, pool, BuiltIn::False, &sort, none)?;
    Ok(number)
}

/// Two arguments.
pub fn two_numbers(alloc: Global, first: u32, second: u32) -> Result<NodeNumbers, Memory>
    ensures { IfOk result (λ ns. ns ≡ first ∷ second ∷ []) }
{
    let mut items = Vec::with_capacity(alloc, 2)?;
    items.push(first)?;
    items.push(second)?;
    Ok(NodeNumbers::from_vec(items))
}

/// The equality of two terms at the sort of the first one.
pub fn equality_in(alloc: Global, pool: &mut Pool, left: u32, right: u32) -> Result<u32, Memory>
    requires left { left < length pool.old.trees }
    requires right { right < length pool.old.trees }
    ensures tree { IfOk result (λ n. HasTree pool.new n
        (equality (sort_of (tree_in pool.old.trees left)) (tree_in pool.old.trees left)
        (tree_in pool.old.trees right))) }
    ensures grows { OnOk result (Grows pool.old pool.new) }
{
    let sort = pool.sort_of(left).copy()?;
    let arguments = two_numbers(alloc, left, right)?;
    let number = apply_built_in(alloc, pool, BuiltIn::Equal, &sort, arguments)?;
    Ok(number)
}
