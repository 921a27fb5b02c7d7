ghost use Rattle.std.specs.Prelude.{◌≡◌, IfOk, map};
ghost use Rattle.larch_trim.specs.ByNumbers.{number_at};
ghost use Rattle.larch_trim.specs.ByNumbers.{move_of};
ghost use Rattle.larch_verify_law.specs.Moves.{Move, moved_binding, moved_equation, moved_part, moved_variable};

use crate::numbers::NewNumbers;
use crate::term::move_term;
use larch_base::{Memory, Sequence, let_go};
use larch_certificate::{Binding, BoxPart, CodedEquation, CodedVar, Numbers};
use std::alloc::Global;

/// What stands in lists of a line and may name boxes.
pub trait Item: Drop {
    ghost moves: { Move → Self → Self };

    /// The item with the new numbers of its boxes.
    fn move_on(&self, alloc: Global, numbers: &NewNumbers) -> Result<Self, Memory>
        ensures { IfOk result (λ item. item ≡ moves (move_of numbers.now) self.now) };
}

/// The items with the new numbers of their boxes.
pub fn move_items<T: Item>(
    alloc: Global,
    numbers: &NewNumbers,
    items: &[T],
) -> Result<Sequence<T>, Memory>
    ensures { IfOk result (λ moved. moved ≡ map (T.moves (move_of numbers.now)) items.now) }
{
    let mut moved = Sequence::new(alloc);
    for item in items {
        let item = item.move_on(alloc, numbers)?;
        moved.push(item)?;
    }
    Ok(moved)
}

/// The new numbers of lines or boxes.
pub fn move_numbers(alloc: Global, numbers: &NewNumbers, named: &[u64]) -> Result<Numbers, Memory>
    ensures { IfOk result (λ moved. moved ≡ map (number_at numbers.now) named.now) }
{
    let mut moved = Sequence::new(alloc);
    for number in named {
        moved.push(numbers.number(*number))?;
    }
    Ok(moved)
}

/// The same numbers once more.
pub fn copy_numbers(alloc: Global, numbers: &[u64]) -> Result<Numbers, Memory>
    ensures { IfOk result (λ copied. copied ≡ numbers.now) }
{
    let copied = Vec::from_slice(alloc, numbers)?;
    Ok(Sequence::from_vec(copied))
}

/// The variable once more.
pub fn copy_variable(variable: &CodedVar) -> Result<CodedVar, Memory>
    ensures { IfOk result (λ copied. copied ≡ variable.now) }
{
    let name = variable.name.copy()?;
    let sort = variable.sort.copy()?;
    Ok(CodedVar { name, sort })
}

impl Item for CodedVar {
    ghost moves = { moved_variable };

    fn move_on(&self, _alloc: Global, _numbers: &NewNumbers) -> Result<CodedVar, Memory> {
        copy_variable(self)
    }
}

impl Item for BoxPart {
    ghost moves = { moved_part };

    fn move_on(&self, _alloc: Global, _numbers: &NewNumbers) -> Result<BoxPart, Memory> {
        let sort = self.sort.copy()?;
        let predicate = self.predicate;
        Ok(BoxPart { sort, predicate })
    }
}

/// The equation with the new numbers of its boxes.
pub fn move_equation(
    alloc: Global,
    numbers: &NewNumbers,
    equation: &CodedEquation,
) -> Result<CodedEquation, Memory>
    ensures { IfOk result (λ moved. moved ≡ moved_equation (move_of numbers.now) equation.now) }
{
    let left = move_term(alloc, numbers, &equation.left)?;
    match move_term(alloc, numbers, &equation.right) {
        Ok(right) => Ok(CodedEquation { left, right }),
        Err(memory) => Err(let_go(memory, left)),
    }
}

impl Item for CodedEquation {
    ghost moves = { moved_equation };

    fn move_on(&self, alloc: Global, numbers: &NewNumbers) -> Result<CodedEquation, Memory> {
        move_equation(alloc, numbers, self)
    }
}

impl Item for Binding {
    ghost moves = { moved_binding };

    fn move_on(&self, alloc: Global, numbers: &NewNumbers) -> Result<Binding, Memory> {
        let name = self.name.copy()?;
        let sort = self.sort.copy()?;
        match move_term(alloc, numbers, &self.term) {
            Ok(term) => Ok(Binding { name, sort, term }),
            Err(memory) => Err(let_go(memory, (name, sort))),
        }
    }
}
