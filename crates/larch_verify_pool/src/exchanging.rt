ghost use Rattle.std.specs.Prelude.{◌≡◌, ℕ, ◌<◌, ◌≤◌, ◌+◌, ◌*◌, ◌++◌, ◌∷◌, [], List, nat_eq, length, map, take, All};
ghost use Rattle.std.specs.Prelude.{reverse, sum_by, slice_get, IsSome, IfOk, OnOk, Option, Some, None};
ghost use Rattle.std.specs.HashMap.{get};
ghost use Rattle.larch_term.specs.Tree.{Tree, nodes};
ghost use Rattle.larch_verify_pool.specs.Pooled.{name_of, tree_in, Grows, HasTree};
ghost use Rattle.larch_verify_pool.specs.Exchanging.{image_by, image_in, constant_image, IsRule, IsExchange, Exchanged};
ghost use Rattle.larch_verify_pool.specs.Exchanging.{IsWithin};
ghost use Rattle.larch_verify_pool.specs.Tasks.{AreArgumentsDue, AreTasks, IsApplication, IsDue, IsReady, effort};
ghost use Rattle.larch_verify_pool.specs.Tasks.{number_of};
ghost use Rattle.larch_verify_pool.specs.declared.exchanging.Rule.{Rule};

use crate::node::PoolNode;
use crate::numbers::NodeNumbers;
use crate::pool::Pool;
use crate::symbol::SymbolName;
use larch_base::Memory;
use std::alloc::Global;
use std::collections::HashMap;

// What takes the place of subterms.
#[derive(Drop)]
pub(crate) enum Rule {
    // Numbers for numbers.
    Table(HashMap<u32, u32>),
    // Numbers for the constants of a box, in order: the box's number, that of the first constant, and theirs.
    Constants(u64, u64, NodeNumbers),
}

// What waits to be done with a number.
#[derive(Clone, Copy, Drop)]
pub(crate) enum Task {
    // To see what takes its place.
    Visit(u32),
    // To rebuild it of what its arguments became, which stand above it.
    Rebuild(u32),
}

// The number of what a map makes of a term: it goes to a rule's numbers where the rule has one, and rebuilds what is
// above them. Each different subterm is built once.
pub(crate) fn exchange(
    alloc: Global,
    pool: &mut Pool,
    term: u32,
    rule: &Rule,
) -> Result<u32, Memory>
    requires term { term < length pool.old.trees }
    requires rule { IsRule pool.old.trees rule.now }
    ensures tree { IfOk result (λ n. (F : Tree → Tree)
        → IsExchange pool.old.trees (image_in pool.old.trees rule.now) F
        → HasTree pool.new n (F (tree_in pool.old.trees term))) }
    ensures grows { OnOk result (Grows pool.old pool.new) }
    ensures operators { OnOk result (pool.new.operators ≡ pool.old.operators) }
{
    let mut done = HashMap::new(alloc);
    let mut tasks = Vec::new(alloc);
    tasks.push(Task::Visit(term))?;
    while let Some(task) = tasks.pop() {
        carry_out(alloc, pool, rule, task, &mut done, &mut tasks)?;
    }
    let Some(number) = done.get(&term) else {
        unreachable!()
    };
    Ok(*number)
}

// Carries out a task, where all that it needs is done.
fn carry_out(
    alloc: Global,
    pool: &mut Pool,
    rule: &Rule,
    task: Task,
    done: &mut HashMap<u32, u32>,
    tasks: &mut Vec<Task>,
) -> Result<(), Memory>
    requires number { number_of task < length pool.old.trees }
    requires ready { IsReady pool.old.trees rule.now (get nat_eq done.old) [] task }
    requires rule { IsRule pool.old.trees rule.now }
    requires within { IsWithin pool.old.trees (get nat_eq done.old) }
    ensures grows { OnOk result (Grows pool.old pool.new) }
    ensures operators { OnOk result (pool.new.operators ≡ pool.old.operators) }
    ensures within { OnOk result (IsWithin pool.new.trees (get nat_eq done.new)) }
    ensures right { OnOk result ((us : List Tree) (F : Tree → Tree) → take (length us) pool.old.trees ≡ us
        → number_of task < length us → IsExchange us (image_in us rule.now) F
        → Exchanged us pool.old.trees F (get nat_eq done.old) → Exchanged us pool.new.trees F (get nat_eq done.new)) }
    ensures tasks { OnOk result ((t : ℕ) → t < length pool.old.trees
        → AreTasks pool.old.trees rule.now t (get nat_eq done.old) [] (task ∷ reverse tasks.old.items)
        → AreTasks pool.new.trees rule.now t (get nat_eq done.new) [] (reverse tasks.new.items)) }
    ensures effort { OnOk result ((t : ℕ) → t < length pool.old.trees
        → AreTasks pool.old.trees rule.now t (get nat_eq done.old) [] (task ∷ reverse tasks.old.items)
        → sum_by (effort pool.new.trees) (reverse tasks.new.items)
        < sum_by (effort pool.old.trees) (task ∷ reverse tasks.old.items)) }
{
    match task {
        Task::Visit(number) => {
            visit(pool, number, rule, done, tasks)?;
            Ok(())
        }
        Task::Rebuild(number) => {
            rebuild(alloc, pool, number, done)?;
            Ok(())
        }
    }
}

// Finds what takes a number's place, or puts it on the stack to be rebuilt, below the arguments that it needs first.
fn visit(
    pool: &Pool,
    number: u32,
    rule: &Rule,
    done: &mut HashMap<u32, u32>,
    tasks: &mut Vec<Task>,
) -> Result<(), Memory>
    requires number { number < length pool.now.trees }
    requires rule { IsRule pool.now.trees rule.now }
    requires within { IsWithin pool.now.trees (get nat_eq done.old) }
    ensures within { OnOk result (IsWithin pool.now.trees (get nat_eq done.new)) }
    ensures right { OnOk result ((us : List Tree) (F : Tree → Tree) → take (length us) pool.now.trees ≡ us
        → number < length us → IsExchange us (image_in us rule.now) F
        → Exchanged us pool.now.trees F (get nat_eq done.old) → Exchanged us pool.now.trees F (get nat_eq done.new)) }
    ensures tasks { OnOk result ((t : ℕ) → number ≤ t
        → AreTasks pool.now.trees rule.now t (get nat_eq done.old) (number ∷ []) (reverse tasks.old.items)
        → AreTasks pool.now.trees rule.now t (get nat_eq done.new) [] (reverse tasks.new.items)) }
    ensures effort { OnOk result (sum_by (effort pool.now.trees) (reverse tasks.new.items)
        < 2 * nodes (tree_in pool.now.trees number) + sum_by (effort pool.now.trees) (reverse tasks.old.items)) }
{
    pool.are_apart();
    if done.contains_key(&number) {
        return Ok(());
    }
    if let Some(image) = image_of(pool, number, rule) {
        done.insert(number, image)?;
        return Ok(());
    }
    match pool.node(number) {
        PoolNode::Var(_, _) => {
            done.insert(number, number)?;
            Ok(())
        }
        PoolNode::App(_, arguments) => {
            tasks.push(Task::Rebuild(number))?;
            push_missing(arguments.as_slice(), done, tasks)?;
            Ok(())
        }
    }
}

// The number that a rule has for a number.
fn image_of(pool: &Pool, number: u32, rule: &Rule) -> Option<u32>
    requires { number < length pool.now.trees }
    ensures { result ≡ image_by rule.now number (tree_in pool.now.trees number) }
{
    match rule {
        Rule::Table(images) => images.get(&number).copied(),
        Rule::Constants(of_box, first, images) => match pool.node(number) {
            PoolNode::Var(_, _) => None,
            PoolNode::App(operator, _) => {
                constant_image(pool.name(*operator), *of_box, *first, images.as_slice())
            }
        },
    }
}

// What takes the place of a name, if it is that of a constant of the box.
#[tactic(auto, using(crate::proofs::Constants::constant_at, crate::proofs::Constants::constant_before, crate::proofs::Constants::constant_elsewhere))]
fn constant_image(name: &SymbolName, of_box: u64, first: u64, images: &[u32]) -> Option<u32>
    ensures { result ≡ constant_image of_box first images.now (name_of name.now) }
{
    match name {
        SymbolName::Plain(_) => None,
        SymbolName::Boxed(other, constant) => {
            if *other != of_box || *constant < first {
                return None;
            }
            image_at(images, (*constant - first) as usize)
        }
    }
}

fn image_at(images: &[u32], index: usize) -> Option<u32>
    ensures { result ≡ slice_get images.now index }
{
    images.get(index).copied()
}

// Rebuilds an application of what its arguments became.
fn rebuild(
    alloc: Global,
    pool: &mut Pool,
    number: u32,
    done: &mut HashMap<u32, u32>,
) -> Result<(), Memory>
    requires number { number < length pool.old.trees }
    requires application { IsApplication (tree_in pool.old.trees number) }
    requires arguments { AreArgumentsDue pool.old.trees (get nat_eq done.old) [] number }
    requires within { IsWithin pool.old.trees (get nat_eq done.old) }
    ensures grows { OnOk result (Grows pool.old pool.new) }
    ensures operators { OnOk result (pool.new.operators ≡ pool.old.operators) }
    ensures within { OnOk result (IsWithin pool.new.trees (get nat_eq done.new)) }
    ensures right { OnOk result ((us : List Tree) (table : ℕ → Option ℕ) (F : Tree → Tree)
        → take (length us) pool.old.trees ≡ us → number < length us → IsExchange us table F → table number ≡ None
        → Exchanged us pool.old.trees F (get nat_eq done.old) → Exchanged us pool.new.trees F (get nat_eq done.new)) }
    ensures due { OnOk result ((q : ℕ) → IsDue (get nat_eq done.old) (number ∷ []) q
        → IsDue (get nat_eq done.new) [] q) }
{
    let PoolNode::App(operator, arguments) = pool.node(number) else {
        unreachable!()
    };
    let operator = *operator;
    let images = images_of(alloc, arguments.as_slice(), done)?;
    let made = pool.apply(operator, images)?;
    done.insert(number, made)?;
    Ok(())
}

// What numbers became, all of which are done.
fn images_of(
    alloc: Global,
    numbers: &[u32],
    done: &HashMap<u32, u32>,
) -> Result<NodeNumbers, Memory>
    requires { All (λ q. IsSome (get nat_eq done.now q)) numbers.now }
    ensures { IfOk result (λ ns. map (get nat_eq done.now) numbers.now ≡ map Some ns) }
{
    let mut images = Vec::with_capacity(alloc, numbers.len())?;
    for number in numbers {
        let Some(image) = done.get(number) else {
            unreachable!()
        };
        images.push(*image)?;
    }
    Ok(NodeNumbers::from_vec(images))
}

// Puts the numbers that aren't done on the stack.
fn push_missing(
    numbers: &[u32],
    done: &HashMap<u32, u32>,
    tasks: &mut Vec<Task>,
) -> Result<(), Memory>
    ensures tasks { OnOk result ((us : List Tree) (rule : Rule) (t : ℕ) (ns : List ℕ)
        → All (λ q. q ≤ t) numbers.now
        → AreTasks us rule t (get nat_eq done.now) (numbers.now ++ ns) (reverse tasks.old.items)
        → AreTasks us rule t (get nat_eq done.now) ns (reverse tasks.new.items)) }
    ensures effort { OnOk result ((us : List Tree) → sum_by (effort us) (reverse tasks.new.items)
        ≤ sum_by (λ q. 2 * nodes (tree_in us q)) numbers.now + sum_by (effort us) (reverse tasks.old.items)) }
{
    for number in numbers {
        if done.contains_key(number) {
            continue;
        }
        tasks.push(Task::Visit(*number))?;
    }
    Ok(())
}
