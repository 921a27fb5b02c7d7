ghost use Rattle.std.specs.Prelude.{◌≡◌, ◌<◌, ℕ, List, [], ◌∷◌, ◌++◌, if◌then◌else◌, length, map, reverse, All, IfOk};
ghost use Rattle.std.specs.Prelude.{IfSome, OnOk, None, Some, take, drop, ◌-◌};
ghost use Rattle.std.specs.Option.{option_map};
ghost use Rattle.larch_term.specs.Tree.{Tree, var};
ghost use Rattle.larch_certificate.specs.Coded.{CodedTree};
ghost use Rattle.larch_verify_meaning.specs.Context.{find_symbol};
ghost use Rattle.larch_verify_meaning.specs.Decoding.{decode, decode_equation};
ghost use Rattle.larch_verify_pool.specs.Pooled.{tree_in, HasTree, Grows};
ghost use Rattle.larch_verify_history.specs.Past.{IsPast, IsEquated, equated_in, history_of};
ghost use Rattle.larch_verify_decoding.specs.Postorder.{postorder, postorders, value_of, values_after};

use crate::symbols::find_operator;
use larch_base::{Memory, Name};
use larch_certificate::{Coded, CodedEquation, CodedNode, Symbol};
use larch_term::Sort;
use larch_verify_history::{Context, Equated};
use larch_verify_pool::{NodeNumbers, Pool};
use std::alloc::Global;

/// The number of the well sorted term that a coded one means, if it means one. It goes down no term by recursion, and
/// it takes time by the coded term's own size.
pub fn decode(
    alloc: Global,
    pool: &mut Pool,
    context: &Context<'_>,
    term: &Coded,
) -> Result<Option<u32>, Memory>
    requires { IsPast context.now.theory.now pool.old context.now.past.now }
    ensures within { IfOk result (λ o. IfSome o (λ n. n < length pool.new.trees)) }
    ensures says { IfOk result (λ o. option_map (tree_in pool.new.trees) o
        ≡ decode (find_symbol context.now.theory.now (history_of pool.old context.now.past.now)) term.now) }
    ensures grows { OnOk result (Grows pool.old pool.new) }
{
    let mut order = in_order(alloc, term)?;
    let mut values = Vec::new(alloc);
    while let Some(next) = order.pop() {
        let goes_on = decode_next(alloc, pool, context, next, &mut values)?;
        if !goes_on {
            return Ok(None);
        }
    }
    Ok(values.pop())
}

// A term and all terms in it, each before its arguments and the last first.
fn in_order<'a>(alloc: Global, term: &'a Coded) -> Result<Vec<&'a Coded>, Memory>
    ensures { IfOk result (λ order. map (λ c. c.now) (reverse order.items) ≡ postorder term.now) }
{
    let mut order = Vec::new(alloc);
    let mut waiting = Vec::new(alloc);
    waiting.push(term)?;
    while let Some(next) = waiting.pop() {
        order.push(next)?;
        push_arguments(next, &mut waiting)?;
    }
    Ok(order)
}

// Puts the arguments of a term behind others.
fn push_arguments<'a>(term: &'a Coded, waiting: &mut Vec<&'a Coded>) -> Result<(), Memory>
    ensures { OnOk result (postorders (map (λ c. c.now) waiting.new.items) ++ term.now ∷ []
        ≡ postorders (map (λ c. c.now) waiting.old.items) ++ postorder term.now) }
{
    match term.node() {
        CodedNode::Var(_, _) => Ok(()),
        CodedNode::App(_, arguments) => {
            push_all(arguments.as_slice(), waiting)?;
            Ok(())
        }
    }
}

fn push_all<'a>(terms: &'a [Coded], waiting: &mut Vec<&'a Coded>) -> Result<(), Memory>
    ensures { OnOk result (map (λ c. c.now) waiting.new.items ≡ map (λ c. c.now) waiting.old.items ++ terms.now) }
{
    for term in terms {
        waiting.push(term)?;
    }
    Ok(())
}

// Puts a term's value behind others, in the place of those of its arguments. `false` where it has none.
fn decode_next(
    alloc: Global,
    pool: &mut Pool,
    context: &Context<'_>,
    term: &Coded,
    values: &mut Vec<u32>,
) -> Result<bool, Memory>
    requires past { IsPast context.now.theory.now pool.old context.now.past.now }
    requires values { All (λ n. n < length pool.old.trees) values.old.items }
    ensures within { OnOk result (All (λ n. n < length pool.new.trees) values.new.items) }
    ensures values { IfOk result (λ b. (cs : List CodedTree)
        → values_after (find_symbol context.now.theory.now (history_of pool.old context.now.past.now)) (term.now ∷ cs)
        (map (tree_in pool.old.trees) values.old.items)
        ≡ (if b then values_after (find_symbol context.now.theory.now (history_of pool.old context.now.past.now)) cs
        (map (tree_in pool.new.trees) values.new.items) else None)) }
    ensures grows { OnOk result (Grows pool.old pool.new) }
{
    match term.node() {
        CodedNode::Var(name, sort) => {
            let number = decode_variable(pool, name, sort)?;
            values.push(number)?;
            Ok(true)
        }
        CodedNode::App(symbol, arguments) => {
            let arguments = take_last(alloc, values, arguments.as_slice().len())?;
            let value = decode_application(alloc, pool, context, *symbol, arguments)?;
            let Some(number) = value else {
                return Ok(false);
            };
            values.push(number)?;
            Ok(true)
        }
    }
}

/// The number of a variable.
pub fn decode_variable(pool: &mut Pool, name: &Name, sort: &Sort) -> Result<u32, Memory>
    ensures tree { IfOk result (λ n. HasTree pool.new n (var name.now sort.now)) }
    ensures grows { OnOk result (Grows pool.old pool.new) }
{
    let name = name.copy()?;
    let sort = sort.copy()?;
    let number = pool.var(name, sort)?;
    Ok(number)
}

// Takes the last of some numbers away, or all where there are fewer.
fn take_last(alloc: Global, numbers: &mut Vec<u32>, count: usize) -> Result<NodeNumbers, Memory>
    ensures last { IfOk result (λ ns. ns ≡ drop (length numbers.old.items - count) numbers.old.items) }
    ensures rest { OnOk result (numbers.new.items ≡ take (length numbers.old.items - count) numbers.old.items) }
{
    let kept = numbers.len().saturating_sub(count);
    let last = Vec::from_slice(alloc, &numbers[kept..])?;
    numbers.truncate(kept);
    Ok(NodeNumbers::from_vec(last))
}

// The number of a symbol's application to arguments, if it means an operator that takes them.
fn decode_application(
    alloc: Global,
    pool: &mut Pool,
    context: &Context<'_>,
    symbol: Symbol,
    arguments: NodeNumbers,
) -> Result<Option<u32>, Memory>
    requires past { IsPast context.now.theory.now pool.old context.now.past.now }
    requires arguments { All (λ n. n < length pool.old.trees) arguments }
    ensures within { IfOk result (λ o. IfSome o (λ n. n < length pool.new.trees)) }
    ensures value { IfOk result (λ o. option_map (tree_in pool.new.trees) o
        ≡ value_of (find_symbol context.now.theory.now (history_of pool.old context.now.past.now)) symbol
        (map (tree_in pool.old.trees) arguments)) }
    ensures grows { OnOk result (Grows pool.old pool.new) }
{
    let found = find_operator(alloc, pool, context, symbol, arguments.as_slice())?;
    let Some(operator) = found else {
        return Ok(None);
    };
    if !pool.takes(operator, arguments.as_slice()) {
        return Ok(None);
    }
    let number = pool.apply(operator, arguments)?;
    Ok(Some(number))
}

/// The equation that a coded one means, if it means one: two terms of one sort.
pub fn decode_equation(
    alloc: Global,
    pool: &mut Pool,
    context: &Context<'_>,
    equation: &CodedEquation,
) -> Result<Option<Equated>, Memory>
    requires { IsPast context.now.theory.now pool.old context.now.past.now }
    ensures within { IfOk result (λ o. IfSome o (IsEquated pool.new)) }
    ensures says { IfOk result (λ o. option_map (equated_in pool.new) o
        ≡ decode_equation (find_symbol context.now.theory.now (history_of pool.old context.now.past.now))
        equation.now) }
    ensures grows { OnOk result (Grows pool.old pool.new) }
{
    let left = decode(alloc, pool, context, &equation.left)?;
    let Some(left) = left else {
        return Ok(None);
    };
    let right = decode(alloc, pool, context, &equation.right)?;
    let Some(right) = right else {
        return Ok(None);
    };
    if pool.sort_of(left) != pool.sort_of(right) {
        return Ok(None);
    }
    Ok(Some(Equated { left, right }))
}
