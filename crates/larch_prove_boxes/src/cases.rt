ghost use Rattle.std.specs.Prelude.{option_map, IfOk, OnOk};
ghost use Rattle.larch_derive.specs.Predicates.{Grows, HasEquation};
ghost use Rattle.larch_derive.specs.declared.builder.Builder.{Builder as Built};
ghost use Rattle.larch_prove_boxes.specs.Ends.{AreLeft};
ghost use Rattle.larch_prove_invariant.specs.ProveMeaningPlans.{Cases};
ghost use Rattle.larch_term.specs.Tree.{Tree};
ghost use Rattle.larch_term.specs.Truth.{truth};

use crate::leave::Leave;
use crate::lefts::{both_numbers, shared_box};
use larch_base::Memory;
use larch_derive::{Builder, OpenBox};
use larch_prove_invariant::from_methods::finish_cases;
use larch_term::Term;
use std::alloc::Global;

// A line that says that the goal is true, by cases of a formula.
pub(crate) fn end_cases(
    alloc: Global,
    builder: &mut Builder,
    formula: &Term,
    shared: Option<&OpenBox>,
    lefts: &[Leave],
) -> Result<u64, Memory>
    requires { (a : Built) × ((g : Tree) × AreLeft a builder.old (Cases formula.now) g
        (option_map (λ x. x.now) shared) lefts.now) }
    ensures says { IfOk result (λ n. (a : Built) (g : Tree) → AreLeft a builder.old (Cases formula.now) g
        (option_map (λ x. x.now) shared.entry) lefts.now → HasEquation builder.new n g truth) }
    ensures grows { OnOk result ((a : Built) (g : Tree) → AreLeft a builder.old (Cases formula.now) g
        (option_map (λ x. x.now) shared.entry) lefts.now → Grows a builder.new) }
{
    let around = shared_box(shared);
    let (first, second) = both_numbers(lefts);
    finish_cases(alloc, builder, formula, around.number, first, second)
}
