ghost use Rattle.std.specs.Prelude.{option_map, IfOk, OnOk};
ghost use Rattle.larch_derive.specs.Predicates.{Grows, HasEquation};
ghost use Rattle.larch_derive.specs.declared.builder.Builder.{Builder as Built};
ghost use Rattle.larch_prove_boxes.specs.Ends.{AreLeft};
ghost use Rattle.larch_prove_invariant.specs.ProveMeaningPlans.{Contradiction};
ghost use Rattle.larch_term.specs.Truth.{truth};

use crate::leave::Leave;
use crate::lefts::{only_number, shared_box};
use larch_base::Memory;
use larch_derive::{Builder, OpenBox};
use larch_prove_invariant::from_methods::finish_contradiction;
use larch_prove_invariant::from_prove_plans::closed_by;
use larch_term::Term;
use std::alloc::Global;

// A line that says that the goal is true, by contradiction.
pub(crate) fn end_contradiction(
    alloc: Global,
    builder: &mut Builder,
    goal: &Term,
    shared: Option<&OpenBox>,
    lefts: &[Leave],
) -> Result<u64, Memory>
    requires { (a : Built) × AreLeft a builder.old Contradiction goal.now (option_map (λ x. x.now) shared) lefts.now }
    ensures says { IfOk result (λ n. (a : Built) → AreLeft a builder.old Contradiction goal.now
        (option_map (λ x. x.now) shared.entry) lefts.now → HasEquation builder.new n goal.now truth) }
    ensures grows { OnOk result ((a : Built) → AreLeft a builder.old Contradiction goal.now
        (option_map (λ x. x.now) shared.entry) lefts.now → Grows a builder.new) }
{
    let around = shared_box(shared);
    let number = only_number(lefts);
    let closed = closed_by(alloc, goal, around.constants.as_slice(), goal)?;
    finish_contradiction(alloc, builder, goal, &closed, around.number, number)
}
