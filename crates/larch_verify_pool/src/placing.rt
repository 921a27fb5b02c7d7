ghost use Rattle.std.specs.Prelude.{◌≡◌, ℕ, ◌<◌, ◌≤◌, ◌-◌, ◌⊎◌, length, IfOk, IfSome, IfNone, OnOk, None};
ghost use Rattle.std.specs.Option.{option_map};
ghost use Rattle.std.specs.List.{slice_index, slice_set};
ghost use Rattle.larch_term.specs.Place.{at, put};
ghost use Rattle.larch_term.specs.Tree.{Tree};
ghost use Rattle.larch_verify_pool.specs.Pooled.{tree_in, Grows, HasTree};
ghost use Rattle.larch_verify_pool.specs.Places.{argument_of, with_argument, plug_in, AreFrames};

use crate::node::PoolNode;
use crate::numbers::NodeNumbers;
use crate::pool::Pool;
use larch_base::Memory;
use std::alloc::Global;

// A node on the way to a place, with the number of the argument that the way takes.
#[derive(Clone, Copy, Drop)]
struct Frame {
    node: u32,
    argument: u64,
}

// The argument of a node with a number, counted from 1.
fn argument(pool: &Pool, node: u32, number: u64) -> Option<u32>
    requires { node < length pool.now.trees }
    ensures some { IfSome result (λ c. c < length pool.now.trees) }
    ensures tree { option_map (tree_in pool.now.trees) result ≡ argument_of (tree_in pool.now.trees node) number }
{
    match pool.node(node) {
        PoolNode::Var(_, _) => None,
        PoolNode::App(_, arguments) => numbered(arguments.as_slice(), number),
    }
}

// The member of a list with a number, counted from 1.
fn numbered(numbers: &[u32], number: u64) -> Option<u32>
    ensures some { IfSome result (λ c. (0 < number) × (number - 1 < length numbers.now)
        × (c ≡ slice_index numbers.now (number - 1))) }
    ensures none { IfNone result ((number ≡ 0) ⊎ (length numbers.now ≤ number - 1)) }
{
    if number == 0 || number as usize > numbers.len() {
        return None;
    }
    Some(numbers[number as usize - 1])
}

/// The subterm at a place. It takes no memory.
pub fn at(pool: &Pool, term: u32, place: &[u64]) -> Option<u32>
    requires { term < length pool.now.trees }
    ensures some { IfSome result (λ n. n < length pool.now.trees) }
    ensures tree { option_map (tree_in pool.now.trees) result ≡ at (tree_in pool.now.trees term) place.now }
{
    let mut here = term;
    for number in place {
        here = argument(pool, here, *number)?;
    }
    Some(here)
}

/// The term with another one in the stead of what stands at a place, if it has the place.
pub fn replace_at(
    alloc: Global,
    pool: &mut Pool,
    term: u32,
    place: &[u64],
    by: u32,
) -> Result<Option<u32>, Memory>
    requires term { term < length pool.old.trees }
    requires by { by < length pool.old.trees }
    ensures some { IfOk result (λ o. IfSome o
        (λ n. HasTree pool.new n (put (tree_in pool.old.trees term) place.now (tree_in pool.old.trees by)))) }
    ensures none { IfOk result (λ o. IfNone o (at (tree_in pool.old.trees term) place.now ≡ None)) }
    ensures grows { OnOk result (Grows pool.old pool.new) }
    ensures operators { OnOk result (pool.new.operators ≡ pool.old.operators) }
{
    let frames = frames_of(alloc, pool, term, place)?;
    let Some(frames) = frames else {
        return Ok(None);
    };
    let made = plug(alloc, pool, frames, by)?;
    Ok(Some(made))
}

// The way to a place.
fn frames_of(
    alloc: Global,
    pool: &Pool,
    term: u32,
    place: &[u64],
) -> Result<Option<Vec<Frame>>, Memory>
    requires { term < length pool.now.trees }
    ensures frames { IfOk result (λ o. IfSome o (λ fs. AreFrames pool.now.trees fs.items)) }
    ensures some { IfOk result (λ o. IfSome o (λ fs. (t : Tree)
        → plug_in pool.now.trees fs.items t ≡ put (tree_in pool.now.trees term) place.now t)) }
    ensures none { IfOk result (λ o. IfNone o (at (tree_in pool.now.trees term) place.now ≡ None)) }
{
    let mut frames = Vec::with_capacity(alloc, place.len())?;
    let mut here = term;
    for number in place {
        let Some(next) = argument(pool, here, *number) else {
            return Ok(None);
        };
        frames.push(Frame {
            node: here,
            argument: *number,
        })?;
        here = next;
    }
    Ok(Some(frames))
}

// A term inside others.
fn plug(alloc: Global, pool: &mut Pool, frames: Vec<Frame>, by: u32) -> Result<u32, Memory>
    requires by { by < length pool.old.trees }
    requires frames { AreFrames pool.old.trees frames.items }
    ensures tree { IfOk result (λ n. HasTree pool.new n
        (plug_in pool.old.trees frames.items (tree_in pool.old.trees by))) }
    ensures grows { OnOk result (Grows pool.old pool.new) }
    ensures operators { OnOk result (pool.new.operators ≡ pool.old.operators) }
{
    let mut frames = frames;
    let mut here = by;
    while let Some(frame) = frames.pop() {
        here = refit(alloc, pool, frame, here)?;
    }
    Ok(here)
}

// A node with another argument.
fn refit(alloc: Global, pool: &mut Pool, frame: Frame, argument: u32) -> Result<u32, Memory>
    requires node { frame.node < length pool.old.trees }
    requires argument { argument < length pool.old.trees }
    ensures tree { IfOk result (λ n. HasTree pool.new n
        (with_argument (tree_in pool.old.trees frame.node) frame.argument (tree_in pool.old.trees argument))) }
    ensures grows { OnOk result (Grows pool.old pool.new) }
    ensures operators { OnOk result (pool.new.operators ≡ pool.old.operators) }
{
    let PoolNode::App(operator, arguments) = pool.node(frame.node) else {
        return Ok(frame.node);
    };
    if frame.argument == 0 || frame.argument as usize > arguments.as_slice().len() {
        return Ok(frame.node);
    }
    let operator = *operator;
    let arguments = with_number(
        alloc,
        arguments.as_slice(),
        frame.argument as usize - 1,
        argument,
    )?;
    let made = pool.apply(operator, arguments)?;
    Ok(made)
}

// A list with another number at an index.
fn with_number(
    alloc: Global,
    numbers: &[u32],
    index: usize,
    number: u32,
) -> Result<NodeNumbers, Memory>
    requires { index < length numbers.now }
    ensures { IfOk result (λ ns. ns ≡ slice_set numbers.now index number) }
{
    let mut items = Vec::from_slice(alloc, numbers)?;
    items[index] = number;
    Ok(NodeNumbers::from_vec(items))
}
