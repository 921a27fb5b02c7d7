ghost use Rattle.std.specs.Prelude.{◌≡◌, [], ◌∷◌, All, length, map, option_map, IfOk};
ghost use Rattle.larch_derive.specs.declared.open_box.OpenBox.{OpenBox as opened};
ghost use Rattle.larch_prove_boxes.specs.BoxLists.{box_list};
ghost use Rattle.larch_prove_boxes.specs.Ends.{IsBoxed, number_of};
ghost use Rattle.larch_prove_boxes.specs.Leave.{left_of};
ghost use Rattle.larch_prove_invariant.specs.Book.{InBox};

use crate::leave::Leave;
use larch_base::{Memory, Sequence};
use larch_certificate::Numbers;
use larch_derive::{OpenBox, OpenBoxes};
use larch_term::copy_operators;
use std::alloc::Global;

// The box that subgoals share.
pub(crate) fn shared_box<'a>(shared: Option<&'a OpenBox>) -> &'a OpenBox
    requires { (x : opened) × (box_list (option_map (λ y. y.now) shared) ≡ x ∷ []) }
    ensures { box_list (option_map (λ y. y.now) shared.entry) ≡ result.now ∷ [] }
{
    let Some(shared) = shared else { unreachable!() };
    shared
}

// The number of the box by which a subgoal was left, or of the line.
fn number_of(left: &Leave) -> u64
    ensures { result ≡ number_of left.now }
{
    match left {
        Leave::InBox(closed) => closed.number,
        Leave::AtLine(line) => *line,
    }
}

// The numbers by which subgoals were left, in order.
pub(crate) fn numbers_of(alloc: Global, lefts: &[Leave]) -> Result<Numbers, Memory>
    ensures { IfOk result (λ ns. ns ≡ map number_of lefts.now) }
{
    let mut numbers = Sequence::new(alloc);
    for left in lefts {
        numbers.push(number_of(left))?;
    }
    Ok(numbers)
}

// The number by which the only subgoal was left.
pub(crate) fn only_number(lefts: &[Leave]) -> u64
    requires { length lefts.now ≡ 1 }
    ensures { map number_of lefts.now ≡ result ∷ [] }
{
    let [only] = lefts else { unreachable!() };
    number_of(only)
}

// The numbers by which two subgoals were left.
pub(crate) fn both_numbers(lefts: &[Leave]) -> (u64, u64)
    requires { length lefts.now ≡ 2 }
    ensures { map number_of lefts.now ≡ result.0 ∷ result.1 ∷ [] }
{
    let [first, second] = lefts else {
        unreachable!()
    };
    (number_of(first), number_of(second))
}

// The boxes by which subgoals were left, in order.
pub(crate) fn boxes_of(alloc: Global, lefts: &[Leave]) -> Result<OpenBoxes, Memory>
    requires { All IsBoxed lefts.now }
    ensures { IfOk result (λ xs. map left_of lefts.now ≡ map InBox xs) }
{
    let mut boxes = Sequence::new(alloc);
    for left in lefts {
        let closed = box_of(alloc, left)?;
        boxes.push(closed)?;
    }
    Ok(boxes)
}

fn box_of(alloc: Global, left: &Leave) -> Result<OpenBox, Memory>
    requires { IsBoxed left.now }
    ensures { IfOk result (λ x. left_of left.now ≡ InBox x) }
{
    let Leave::InBox(closed) = left else {
        unreachable!()
    };
    let constants = copy_operators(alloc, closed.constants.as_slice())?;
    let number = closed.number;
    Ok(OpenBox { number, constants })
}
