ghost use Rattle.std.specs.Prelude.{Option, IfOk, OnOk};
ghost use Rattle.larch_derive.specs.Predicates.{Grows, HasEquation};
ghost use Rattle.larch_derive.specs.declared.builder.Builder.{Builder as Built};
ghost use Rattle.larch_derive.specs.declared.open_box.OpenBox.{OpenBox};
ghost use Rattle.larch_prove_boxes.specs.Ends.{AreLeft};
ghost use Rattle.larch_prove_invariant.specs.ProveMeaningPlans.{Conjunction};
ghost use Rattle.larch_term.specs.Truth.{truth};

use crate::leave::Leave;
use crate::lefts::numbers_of;
use larch_base::Memory;
use larch_derive::Builder;
use larch_prove_invariant::from_methods::finish_conjunction;
use larch_term::Term;
use std::alloc::Global;

// A line that says that a conjunction is true, by the lines of its conjuncts.
pub(crate) fn end_conjunction(
    alloc: Global,
    builder: &mut Builder,
    goal: &Term,
    lefts: &[Leave],
) -> Result<u64, Memory>
    ensures says { IfOk result (λ n. (a : Built) (x : Option OpenBox)
        → AreLeft a builder.old Conjunction goal.now x lefts.now → HasEquation builder.new n goal.now truth) }
    ensures grows { OnOk result ((a : Built) (x : Option OpenBox)
        → AreLeft a builder.old Conjunction goal.now x lefts.now → Grows a builder.new) }
{
    let lines = numbers_of(alloc, lefts)?;
    finish_conjunction(alloc, builder, goal, lines.as_slice())
}
