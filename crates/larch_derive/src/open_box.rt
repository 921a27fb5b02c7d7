ghost use Rattle.std.specs.Prelude.{◌≡◌, IfOk};
ghost use Rattle.larch_derive.specs.OpenBox.{place_from, constant_of};

use larch_term::from_base::{Memory, Sequence};
use larch_term::{Operator, Operators, copy_operators};
use std::alloc::Global;

/// An open box: its number, and the operators that stand for its constants and predicates outside of lines.
#[derive(Drop)]
pub struct OpenBox {
    pub number: u64,
    pub constants: Operators,
}

/// Several open boxes, the outermost first.
pub type OpenBoxes = Sequence<OpenBox>;

// The same boxes once more.
pub(crate) fn copy_boxes(alloc: Global, boxes: &[OpenBox]) -> Result<OpenBoxes, Memory>
    ensures { IfOk result (λ copies. copies ≡ boxes.now) }
{
    let mut copies = Sequence::new(alloc);
    for open_box in boxes {
        let constants = copy_operators(alloc, open_box.constants.as_slice())?;
        let number = open_box.number;
        copies.push(OpenBox { number, constants })?;
    }
    Ok(copies)
}

// Which constant of an open box an operator is: the box's number, and its own, counted from 1.
pub(crate) fn constant_of(boxes: &[OpenBox], operator: &Operator) -> Option<(u64, u64)>
    ensures { result ≡ constant_of boxes.now operator.now }
{
    for open_box in boxes {
        if let Some(place) = place_in(open_box.constants.as_slice(), operator) {
            return Some((open_box.number, place));
        }
    }
    None
}

// The place of an operator in a list, counted from 1.
fn place_in(operators: &[Operator], operator: &Operator) -> Option<u64>
    ensures { result ≡ place_from 1 operators.now operator.now }
{
    let mut place = 1;
    for candidate in operators {
        if *candidate == *operator {
            return Some(place);
        }
        place += 1;
    }
    None
}
