ghost use Rattle.std.specs.Prelude.{◌≡◌, [], IfOk, OnOk, OnErr};
ghost use Rattle.larch_derive.specs.Builder.{boxes_in};
ghost use Rattle.larch_derive.specs.Predicates.{Grows, HasEquation, Known};
ghost use Rattle.larch_derive.specs.declared.builder.Builder.{Builder as Built};
ghost use Rattle.larch_derive_clauses.specs.DeriveBoxesBoxes.{AreOwnConstants};
ghost use Rattle.larch_methods.specs.Clauses.{IsSupposing};
ghost use Rattle.larch_term.specs.Sorts.{sort_of};

use crate::naming::{letters_above, variables_for};
use crate::refusals::undo_refused;
use larch_base::Memory;
use larch_derive::{Builder, OpenBox};
use larch_derive_clauses::from_derive_boxes::{close_box, push_fresh};
use larch_term::Term;
use std::alloc::Global;

/// Closes the innermost box, which supposes nothing, with an equation that a line says and that can be written outside
/// of it, and says it there. A refused call changes nothing, so the box is open still.
pub fn push_outside(
    alloc: Global,
    builder: &mut Builder,
    innermost: &OpenBox,
    left: &Term,
    right: &Term,
    line: u64,
) -> Result<u64, Memory>
    ensures says { IfOk result (λ n. (a : Built) → IsSupposing a builder.old innermost.now []
        → AreOwnConstants (boxes_in a) innermost.now → HasEquation builder.old line left.now right.now
        → Known a left.now → Known a right.now → sort_of left.now ≡ sort_of right.now
        → HasEquation builder.new n left.now right.now) }
    ensures grows { OnOk result ((a : Built) → IsSupposing a builder.old innermost.now []
        → AreOwnConstants (boxes_in a) innermost.now → HasEquation builder.old line left.now right.now
        → Known a left.now → Known a right.now → Grows a builder.new) }
    ensures err { OnErr result (builder.new ≡ builder.old) }
{
    let kept = builder.copy()?;
    let made = write_outside(alloc, builder, innermost, left, right, line);
    let said = undo_refused(builder, kept, made)?;
    Ok(said)
}

// The same, but a refused call may leave the box closed.
fn write_outside(
    alloc: Global,
    builder: &mut Builder,
    innermost: &OpenBox,
    left: &Term,
    right: &Term,
    line: u64,
) -> Result<u64, Memory>
    ensures says { IfOk result (λ n. (a : Built) → IsSupposing a builder.old innermost.now []
        → AreOwnConstants (boxes_in a) innermost.now → HasEquation builder.old line left.now right.now
        → Known a left.now → Known a right.now → sort_of left.now ≡ sort_of right.now
        → HasEquation builder.new n left.now right.now) }
    ensures grows { OnOk result ((a : Built) → IsSupposing a builder.old innermost.now []
        → AreOwnConstants (boxes_in a) innermost.now → HasEquation builder.old line left.now right.now
        → Known a left.now → Known a right.now → Grows a builder.new) }
{
    let letters = letters_above(alloc, left, right)?;
    let variables = variables_for(alloc, letters, innermost.constants.as_slice())?;
    close_box(alloc, builder, line)?;
    let said = push_fresh(builder, innermost.number, variables)?;
    Ok(said)
}
