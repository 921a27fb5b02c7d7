ghost use Rattle.std.specs.Prelude.{◌≡◌, nat_eq, map, IfOk};
ghost use Rattle.std.proofs.Common.{rules};
ghost use Rattle.std.specs.Cmp.Lexicographic.{pointwise};
ghost use Rattle.std.specs.Cmp.Rules.{comparing};
ghost use Rattle.std.specs.Hash as fed;
ghost use Rattle.larch_store.specs.Numbered.{number_of};
ghost use Rattle.larch_store.specs.declared.key.Key.TheVariants.{Var, App};

use crate::shared::Shared;
use larch_base::{Memory, Name};
use larch_term::{Operator, Sort};
use std::alloc::Global;
use std::hash::{Hash, Hasher};
use std::marker::Model;

/// What a shared term is found by: a variable by its name and sort, an application by its operator and the numbers of
/// its arguments.
#[derive(Drop, PartialEq, Eq, Hash)]
pub enum Key {
    /// A variable: its name and sort.
    Var(Name, Sort),
    /// An operator, with the numbers of its arguments.
    App(Operator, SharedNumbers),
}

/// Numbers of shared terms, in order. Contracts see them as a list.
#[derive(Drop)]
pub struct SharedNumbers {
    items: Vec<u64>,
}

impl Model for SharedNumbers {
    ghost use Rattle.std.specs.Prelude.{List, ℕ};

    ghost Value = { List ℕ };

    ghost view = { λ numbers. numbers.items.items };
}

impl SharedNumbers {
    // The numbers.
    fn as_slice(&self) -> &[u64]
        ensures { result.now ≡ self.now }
    {
        self.items.as_slice()
    }
}

impl PartialEq for SharedNumbers {
    ghost eq = { pointwise nat_eq };

    ghost laws = { Prim.search (comparing, rules) };

    fn eq(&self, other: &SharedNumbers) -> bool {
        self.as_slice() == other.as_slice()
    }
}

impl Eq for SharedNumbers {
    ghost laws = { Prim.search (comparing, rules) };
}

impl Hash for SharedNumbers {
    ghost hash_input = { fed.slice fed.u64 };

    ghost respects_eq = { Prim.search (comparing, rules) };

    fn hash<H: Hasher>(&self, state: &mut H) {
        self.as_slice().hash(state);
    }
}

/// The same key once more.
pub fn copy_key(key: &Key) -> Result<Key, Memory>
    ensures { IfOk result (λ copied. copied ≡ key.now) }
{
    match key {
        Key::Var(name, sort) => variable_key(name, sort),
        Key::App(operator, numbers) => copy_application(operator, numbers),
    }
}

// What an operator with arguments of these numbers is found by.
fn copy_application(operator: &Operator, numbers: &SharedNumbers) -> Result<Key, Memory>
    ensures { IfOk result (λ key. key ≡ App operator.now numbers.now) }
{
    let items = numbers.items.clone()?;
    let operator = operator.copy()?;
    Ok(Key::App(operator, SharedNumbers { items }))
}

/// What a variable is found by.
pub fn variable_key(name: &Name, sort: &Sort) -> Result<Key, Memory>
    ensures { IfOk result (λ key. key ≡ Var name.now sort.now) }
{
    let name = name.copy()?;
    let sort = sort.copy()?;
    Ok(Key::Var(name, sort))
}

/// What an operator with arguments is found by.
pub fn application_key(
    alloc: Global,
    operator: &Operator,
    arguments: &[Shared],
) -> Result<Key, Memory>
    ensures { IfOk result (λ key. key ≡ App operator.now (map number_of arguments.now)) }
{
    let numbers = numbers_of(alloc, arguments)?;
    let operator = operator.copy()?;
    Ok(Key::App(operator, numbers))
}

// The numbers of shared terms.
fn numbers_of(alloc: Global, arguments: &[Shared]) -> Result<SharedNumbers, Memory>
    ensures { IfOk result (λ numbers. numbers ≡ map number_of arguments.now) }
{
    let mut items = Vec::with_capacity(alloc, arguments.len())?;
    for argument in arguments {
        items.push(argument.number())?;
    }
    Ok(SharedNumbers { items })
}
