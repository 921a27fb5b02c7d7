ghost use Rattle.std.specs.Prelude.{◌≡◌, ◌<◌, ◌-◌, ◌++◌, ◌∷◌, [], length, map, take, drop, reverse, All, IfOk, OnOk};
ghost use Rattle.std.specs.Prelude.{slice_get, Some};
ghost use Rattle.larch_verify_pool.specs.Pooled.{operator_of, tree_in, Grows, HasTree};
ghost use Rattle.larch_verify_pool.specs.Postorder.{postorder, postorders, read_behind};
ghost use Rattle.larch_term.specs.Tree.{var, app, forest_of};

use crate::numbers::NodeNumbers;
use crate::pool::Pool;
use crate::symbol::{PoolSymbol, SortList, SymbolName};
use larch_base::{Memory, Name};
use larch_term::{Node, Operator, Sort, Term};
use std::alloc::Global;

/// The number of a term that is built of nodes of its own. It goes down no term by recursion, and takes time by the
/// term's own size.
pub fn intern_term(alloc: Global, pool: &mut Pool, term: &Term) -> Result<u32, Memory>
    ensures tree { IfOk result (λ n. HasTree pool.new n term.now) }
    ensures grows { OnOk result (Grows pool.old pool.new) }
{
    let mut order = in_order(alloc, term)?;
    let mut numbers = Vec::new(alloc);
    while let Some(next) = order.pop() {
        intern_next(alloc, pool, next, &mut numbers)?;
    }
    let Some(number) = numbers.pop() else {
        unreachable!()
    };
    Ok(number)
}

// A term and all terms in it, each before its arguments and the last first.
fn in_order<'a>(alloc: Global, term: &'a Term) -> Result<Vec<&'a Term>, Memory>
    ensures { IfOk result (λ order. map (λ t. t.now) (reverse order.items) ≡ postorder term.now) }
{
    let mut order = Vec::new(alloc);
    let mut waiting = Vec::new(alloc);
    waiting.push(term)?;
    while let Some(next) = waiting.pop() {
        order.push(next)?;
        push_arguments(next, &mut waiting)?;
    }
    Ok(order)
}

// Puts the arguments of a term behind others.
fn push_arguments<'a>(term: &'a Term, waiting: &mut Vec<&'a Term>) -> Result<(), Memory>
    ensures { OnOk result (postorders (map (λ t. t.now) waiting.new.items) ++ term.now ∷ []
        ≡ postorders (map (λ t. t.now) waiting.old.items) ++ postorder term.now) }
{
    match term.node() {
        Node::Var(_, _) => Ok(()),
        Node::App(_, arguments) => {
            push_all(arguments.as_slice(), waiting)?;
            Ok(())
        }
    }
}

fn push_all<'a>(terms: &'a [Term], waiting: &mut Vec<&'a Term>) -> Result<(), Memory>
    ensures { OnOk result (map (λ t. t.now) waiting.new.items ≡ map (λ t. t.now) waiting.old.items ++ terms.now) }
{
    for term in terms {
        waiting.push(term)?;
    }
    Ok(())
}

// Puts a term's number behind others, in the place of those of its arguments.
fn intern_next(
    alloc: Global,
    pool: &mut Pool,
    term: &Term,
    numbers: &mut Vec<u32>,
) -> Result<(), Memory>
    requires { All (λ n. n < length pool.old.trees) numbers.old.items }
    ensures within { OnOk result (All (λ n. n < length pool.new.trees) numbers.new.items) }
    ensures trees { OnOk result (map (tree_in pool.new.trees) numbers.new.items
        ≡ read_behind (map (tree_in pool.old.trees) numbers.old.items) term.now) }
    ensures grows { OnOk result (Grows pool.old pool.new) }
{
    match term.node() {
        Node::Var(name, sort) => {
            let number = intern_variable(pool, name, sort)?;
            numbers.push(number)?;
            Ok(())
        }
        Node::App(operator, arguments) => {
            let arguments = take_last(alloc, numbers, arguments.as_slice().len())?;
            let number = apply_operator(alloc, pool, operator, arguments)?;
            numbers.push(number)?;
            Ok(())
        }
    }
}

// The number of a variable.
fn intern_variable(pool: &mut Pool, name: &Name, sort: &Sort) -> Result<u32, Memory>
    ensures tree { IfOk result (λ n. HasTree pool.new n (var name.now sort.now)) }
    ensures grows { OnOk result (Grows pool.old pool.new) }
{
    let name = name.copy()?;
    let sort = sort.copy()?;
    let number = pool.var(name, sort)?;
    Ok(number)
}

// Takes the last of some numbers away, or all where there are fewer.
fn take_last(alloc: Global, numbers: &mut Vec<u32>, count: usize) -> Result<NodeNumbers, Memory>
    ensures last { IfOk result (λ ns. ns ≡ drop (length numbers.old.items - count) numbers.old.items) }
    ensures rest { OnOk result (numbers.new.items ≡ take (length numbers.old.items - count) numbers.old.items) }
{
    let kept = numbers.len().saturating_sub(count);
    let last = Vec::from_slice(alloc, &numbers[kept..])?;
    numbers.truncate(kept);
    Ok(NodeNumbers::from_vec(last))
}

/// The number of an operator.
pub fn intern_operator(alloc: Global, pool: &mut Pool, operator: &Operator) -> Result<u32, Memory>
    ensures number { IfOk result (λ n. slice_get pool.new.operators n ≡ Some operator.now) }
    ensures grows { OnOk result (Grows pool.old pool.new) }
    ensures trees { OnOk result (pool.new.trees ≡ pool.old.trees) }
{
    let symbol = symbol_of(alloc, operator)?;
    let number = pool.operator(symbol)?;
    Ok(number)
}

// The number of an operator with arguments.
fn apply_operator(
    alloc: Global,
    pool: &mut Pool,
    operator: &Operator,
    arguments: NodeNumbers,
) -> Result<u32, Memory>
    requires { All (λ n. n < length pool.old.trees) arguments }
    ensures tree { IfOk result (λ n. HasTree pool.new n
        (app operator.now (forest_of (map (tree_in pool.old.trees) arguments)))) }
    ensures grows { OnOk result (Grows pool.old pool.new) }
{
    let operator = intern_operator(alloc, pool, operator)?;
    let number = pool.apply(operator, arguments)?;
    Ok(number)
}

// An operator whose name is bytes.
fn symbol_of(alloc: Global, operator: &Operator) -> Result<PoolSymbol, Memory>
    ensures { IfOk result (λ s. operator_of s ≡ operator.now) }
{
    let name = operator.name().copy()?;
    let range = operator.range().copy()?;
    let domain = copied(alloc, operator.domain())?;
    Ok(PoolSymbol {
        name: SymbolName::Plain(name),
        domain,
        range,
    })
}

// The same sorts.
fn copied(alloc: Global, sorts: &[Sort]) -> Result<SortList, Memory>
    ensures { IfOk result (λ copied. copied ≡ sorts.now) }
{
    let mut copied = Vec::with_capacity(alloc, sorts.len())?;
    for sort in sorts {
        let sort = sort.copy()?;
        copied.push(sort)?;
    }
    Ok(SortList::from_vec(copied))
}
