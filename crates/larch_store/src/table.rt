ghost use Rattle.std.specs.Prelude.{◌≡◌, ◌+◌, ◌≤◌, ◌<◌, ◌++◌, ◌∷◌, [], false, length, sum_by};
ghost use Rattle.std.specs.Prelude.{IfOk, IfSome, IfNone, OnOk, OnErr};
ghost use Rattle.std.specs.List.{list_any};
ghost use Rattle.std.specs.Map.{keys_of};
ghost use Rattle.larch_store.specs.Numbered.{size_of};
ghost use Rattle.larch_store.specs.SharedView.{view_shared};
ghost use Rattle.larch_store.specs.declared.shared.SharedNode.TheVariants.{Variable, Application};
ghost use Rattle.larch_store.specs.Stored.{most_nodes};
ghost use Rattle.larch_store.specs.contracts.key.KeyPartialEq.TheImpl as key_eq;

use crate::entries::Entries;
use crate::key::Key;
use crate::shared::{Shared, SharedList, SharedNode};
use larch_base::limits::MAX_TERM_NODES;
use larch_base::{Memory, Name, let_go};
use larch_term::{Operator, Sort};
use std::alloc::Global;

// Puts a shared term with this root and size behind the others, under a key that is none of theirs. Where memory is
// wanting nothing changes.
fn put(entries: &mut Entries, key: Key, node: SharedNode, size: u64) -> Result<Shared, Memory>
    requires { list_any (key_eq.ghosts.eq key) (keys_of entries.old) ≡ false }
    ensures result { IfOk result (λ x. x ≡ view_shared (length entries.old) size node) }
    ensures entries { OnOk result
        (entries.new ≡ entries.old ++ (key, view_shared (length entries.old) size node) ∷ []) }
    ensures stay { OnErr result (entries.new ≡ entries.old) }
{
    match Shared::new(entries.allocator(), node, entries.len(), size) {
        Ok(new) => put_new(entries, key, new),
        Err(memory) => Err(let_go(memory, key)),
    }
}

// Puts a shared term behind the others, under a key that is none of theirs, and answers it.
fn put_new(entries: &mut Entries, key: Key, new: Shared) -> Result<Shared, Memory>
    requires { list_any (key_eq.ghosts.eq key) (keys_of entries.old) ≡ false }
    ensures result { IfOk result (λ x. x ≡ new) }
    ensures entries { OnOk result (entries.new ≡ entries.old ++ (key, new) ∷ []) }
    ensures stay { OnErr result (entries.new ≡ entries.old) }
{
    let copied = match new.copy() {
        Ok(copied) => copied,
        Err(memory) => return Err(let_go(memory, (key, new))),
    };
    match entries.put(key, new) {
        Ok(()) => Ok(copied),
        Err(memory) => Err(let_go(memory, copied)),
    }
}

/// Puts the shared term that is a variable behind the others, under a key that is none of theirs.
pub(crate) fn put_variable(
    entries: &mut Entries,
    key: Key,
    name: &Name,
    sort: &Sort,
) -> Result<Shared, Memory>
    requires { list_any (key_eq.ghosts.eq key) (keys_of entries.old) ≡ false }
    ensures result { IfOk result (λ x. x ≡ view_shared (length entries.old) 1 (Variable name.now sort.now)) }
    ensures entries { OnOk result (entries.new
        ≡ entries.old ++ (key, view_shared (length entries.old) 1 (Variable name.now sort.now)) ∷ []) }
    ensures stay { OnErr result (entries.new ≡ entries.old) }
{
    match variable_node(name, sort) {
        Ok(node) => put(entries, key, node, 1),
        Err(memory) => Err(let_go(memory, key)),
    }
}

/// Puts the shared term that is an operator with arguments and has this size behind the others, under a key that is
/// none of theirs.
pub(crate) fn put_application(
    entries: &mut Entries,
    key: Key,
    operator: &Operator,
    arguments: &[Shared],
    size: u64,
) -> Result<Shared, Memory>
    requires { list_any (key_eq.ghosts.eq key) (keys_of entries.old) ≡ false }
    ensures result { IfOk result (λ x.
        x ≡ view_shared (length entries.old) size (Application operator.now arguments.now)) }
    ensures entries { OnOk result (entries.new ≡ entries.old
        ++ (key, view_shared (length entries.old) size (Application operator.now arguments.now)) ∷ []) }
    ensures stay { OnErr result (entries.new ≡ entries.old) }
{
    match application_node(entries.allocator(), operator, arguments) {
        Ok(node) => put(entries, key, node, size),
        Err(memory) => Err(let_go(memory, key)),
    }
}

// The root of a variable.
fn variable_node(name: &Name, sort: &Sort) -> Result<SharedNode, Memory>
    ensures { IfOk result (λ node. node ≡ Variable name.now sort.now) }
{
    let name = name.copy()?;
    let sort = sort.copy()?;
    Ok(SharedNode::Variable(name, sort))
}

// The root of an operator with arguments.
fn application_node(
    alloc: Global,
    operator: &Operator,
    arguments: &[Shared],
) -> Result<SharedNode, Memory>
    ensures { IfOk result (λ node. node ≡ Application operator.now arguments.now) }
{
    let operator = operator.copy()?;
    match copy_all(alloc, arguments) {
        Ok(arguments) => Ok(SharedNode::Application(operator, SharedList::from_vec(arguments))),
        Err(memory) => Err(let_go(memory, operator)),
    }
}

// The same shared terms once more.
fn copy_all(alloc: Global, shared: &[Shared]) -> Result<Vec<Shared>, Memory>
    ensures { IfOk result (λ copies. copies.items ≡ shared.now) }
{
    let mut copies = Vec::with_capacity(alloc, shared.len())?;
    for one in shared {
        let copied = one.copy()?;
        copies.push(copied)?;
    }
    Ok(copies)
}

/// The size of an operator with arguments of these sizes, unless it is above 5,000. It takes no memory.
pub fn size_above(arguments: &[Shared]) -> Option<u64>
    ensures some { IfSome result (λ size. (size ≡ 1 + sum_by size_of arguments.now) × (size ≤ most_nodes)) }
    ensures none { IfNone result (most_nodes < 1 + sum_by size_of arguments.now) }
{
    let mut total: u64 = 1;
    for argument in arguments {
        total = total.saturating_add(argument.size());
        if total > MAX_TERM_NODES as u64 {
            return None;
        }
    }
    Some(total)
}
