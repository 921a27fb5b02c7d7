ghost use Rattle.std.specs.Prelude.{◌≡◌, [], ◌∷◌, List, IfOk, OnOk};
ghost use Rattle.larch_term.specs.Operator.{PlainOperator};
ghost use Rattle.larch_term.specs.declared.statement.Statement.{Statement};
ghost use Rattle.larch_term.specs.declared.statement.Theory.{Theory};
ghost use Rattle.larch_derive.specs.declared.builder.Builder.{Builder as Built};
ghost use Rattle.larch_prove_invariant.specs.ProveMeaningLevels.{Level};
ghost use Rattle.larch_prove_invariant.specs.ProvePlansPlanning.{method_of, subgoal_of};
ghost use Rattle.larch_prove_invariant.specs.Book.{InBox, Kept, Running, SupposingBox};
ghost use Rattle.larch_prove_invariant.specs.Holding.{HasLeft};
ghost use Rattle.larch_prove_invariant.specs.Leaving.{Leaving};
ghost use Rattle.larch_prove_boxes.specs.BoxLists.{box_list, boxes_with};
ghost use Rattle.larch_prove_boxes.specs.Leave.{left_of};
ghost use Rattle.larch_prove_boxes.specs.Saying.{ShowsSubgoal};

use crate::saying::say_left;
use larch_base::Memory;
use larch_derive::{Builder, OpenBox};
use larch_prove_invariant::from_derive_boxes::close_box;
use larch_prove_invariant::from_prove_plans::{Method, Subgoal};
use std::alloc::Global;

/// How a subgoal was left.
#[derive(Drop)]
pub enum Leave {
    /// By its box, which is closed.
    InBox(OpenBox),
    /// By a line, where its method opens no box.
    AtLine(u64),
}

/// Leaves the open subgoal of a method, which has this box if it has one, by a line that says that its goal is true:
/// says what the method wants of it, and closes the box. A refused call may leave lines behind, and the box open or
/// closed.
pub fn leave_subgoal(
    alloc: Global,
    builder: &mut Builder,
    method: &Method,
    subgoal: &Subgoal,
    opened: Option<OpenBox>,
    line: u64,
) -> Result<Leave, Memory>
    ensures { IfOk result (λ left. (t : Theory) (s : Statement) (a : Built) (cs : List PlainOperator)
        (levels : List Level) (k j : Kept) (ks : List Kept) (r : Running)
        → ShowsSubgoal t s a builder.old cs levels k j ks r line → r.method ≡ method_of method.now
        → subgoal.now ≡ subgoal_of r.now → boxes_with k.book.entrance ≡ box_list opened
        → HasLeft builder.new r.method r.now (left_of left) × Leaving t s builder.new [] (j ∷ ks)) }
{
    let Some(opened) = opened else {
        return Ok(Leave::AtLine(line));
    };
    close_subgoal(alloc, builder, method, subgoal, opened.number, line)?;
    Ok(Leave::InBox(opened))
}

// Says what the method wants of a subgoal in the box with a number, and closes it.
fn close_subgoal(
    alloc: Global,
    builder: &mut Builder,
    method: &Method,
    subgoal: &Subgoal,
    number: u64,
    line: u64,
) -> Result<(), Memory>
    ensures { OnOk result ((t : Theory) (s : Statement) (a : Built) (cs : List PlainOperator) (levels : List Level)
        (k j : Kept) (ks : List Kept) (r : Running) (x : SupposingBox)
        → ShowsSubgoal t s a builder.old cs levels k j ks r line → r.method ≡ method_of method.now
        → subgoal.now ≡ subgoal_of r.now → k.book.entrance ≡ x ∷ [] → x.box.number ≡ number
        → HasLeft builder.new r.method r.now (InBox x.box) × Leaving t s builder.new [] (j ∷ ks)) }
{
    let said = say_left(alloc, builder, method, subgoal, number, line)?;
    close_box(alloc, builder, said)?;
    Ok(())
}
