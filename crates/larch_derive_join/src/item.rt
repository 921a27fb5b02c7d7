ghost use Rattle.std.specs.Prelude.{◌≡◌, IfOk, map};
ghost use Rattle.larch_derive_join.specs.Joined.{moved_on};
ghost use Rattle.larch_derive_join.specs.ByShift.{move_of};
ghost use Rattle.larch_verify_law.specs.Moves.{Move, moved_binding, moved_equation, moved_part, moved_variable};

use crate::shift::Shift;
use crate::term::move_term;
use larch_base::{Memory, Sequence, let_go};
use larch_certificate::{Binding, BoxPart, CodedEquation, CodedVar, Numbers};
use std::alloc::Global;

/// What stands in lists of a line and may name boxes.
pub trait Item: Drop {
    ghost moves: { Move → Self → Self };

    /// The item with the numbers of its boxes moved on.
    fn move_on(&self, alloc: Global, shift: &Shift<'_>) -> Result<Self, Memory>
        ensures { IfOk result (λ item. item ≡ moves (move_of shift.now) self.now) };
}

/// The items with the numbers of their boxes moved on.
pub fn move_items<T: Item>(
    alloc: Global,
    shift: &Shift<'_>,
    items: &[T],
) -> Result<Sequence<T>, Memory>
    ensures { IfOk result (λ moved. moved ≡ map (T.moves (move_of shift.now)) items.now) }
{
    let mut moved = Sequence::new(alloc);
    for item in items {
        let item = item.move_on(alloc, shift)?;
        moved.push(item)?;
    }
    Ok(moved)
}

/// The numbers of boxes, moved on.
pub fn move_boxes(alloc: Global, shift: &Shift<'_>, boxes: &[u64]) -> Result<Numbers, Memory>
    ensures { IfOk result (λ moved. moved ≡ map (moved_on shift.now.by) boxes.now) }
{
    let mut moved = Sequence::new(alloc);
    for number in boxes {
        moved.push(shift.number(*number))?;
    }
    Ok(moved)
}

/// The numbers of lines, moved on.
pub fn move_lines(alloc: Global, shift: &Shift<'_>, lines: &[u64]) -> Result<Numbers, Memory>
    ensures { IfOk result (λ moved. moved ≡ map (move_of shift.now).line lines.now) }
{
    let mut moved = Sequence::new(alloc);
    for number in lines {
        moved.push(shift.line(*number))?;
    }
    Ok(moved)
}

/// The same numbers once more.
pub fn copy_numbers(alloc: Global, numbers: &[u64]) -> Result<Numbers, Memory>
    ensures { IfOk result (λ copied. copied ≡ numbers.now) }
{
    let copied = Vec::from_slice(alloc, numbers)?;
    Ok(Sequence::from_vec(copied))
}

/// The variable once more.
pub fn copy_variable(variable: &CodedVar) -> Result<CodedVar, Memory>
    ensures { IfOk result (λ copied. copied ≡ variable.now) }
{
    let name = variable.name.copy()?;
    let sort = variable.sort.copy()?;
    Ok(CodedVar { name, sort })
}

impl Item for CodedVar {
    ghost moves = { moved_variable };

    fn move_on(&self, _alloc: Global, _shift: &Shift<'_>) -> Result<CodedVar, Memory> {
        copy_variable(self)
    }
}

impl Item for BoxPart {
    ghost moves = { moved_part };

    fn move_on(&self, _alloc: Global, _shift: &Shift<'_>) -> Result<BoxPart, Memory> {
        let sort = self.sort.copy()?;
        let predicate = self.predicate;
        Ok(BoxPart { sort, predicate })
    }
}

/// The equation with the numbers of its boxes moved on.
pub fn move_equation(
    alloc: Global,
    shift: &Shift<'_>,
    equation: &CodedEquation,
) -> Result<CodedEquation, Memory>
    ensures { IfOk result (λ moved. moved ≡ moved_equation (move_of shift.now) equation.now) }
{
    let left = move_term(alloc, shift, &equation.left)?;
    match move_term(alloc, shift, &equation.right) {
        Ok(right) => Ok(CodedEquation { left, right }),
        Err(memory) => Err(let_go(memory, left)),
    }
}

impl Item for CodedEquation {
    ghost moves = { moved_equation };

    fn move_on(&self, alloc: Global, shift: &Shift<'_>) -> Result<CodedEquation, Memory> {
        move_equation(alloc, shift, self)
    }
}

impl Item for Binding {
    ghost moves = { moved_binding };

    fn move_on(&self, alloc: Global, shift: &Shift<'_>) -> Result<Binding, Memory> {
        let name = self.name.copy()?;
        let sort = self.sort.copy()?;
        match move_term(alloc, shift, &self.term) {
            Ok(term) => Ok(Binding { name, sort, term }),
            Err(memory) => Err(let_go(memory, (name, sort))),
        }
    }
}
