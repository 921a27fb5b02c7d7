ghost use Rattle.std.specs.Prelude.{◌≡◌, option_map, IfOk, OnOk};
ghost use Rattle.larch_calculus.specs.Formula.{implication};
ghost use Rattle.larch_derive.specs.Predicates.{Grows, HasEquation};
ghost use Rattle.larch_derive.specs.declared.builder.Builder.{Builder as Built};
ghost use Rattle.larch_prove_boxes.specs.Ends.{AreLeft};
ghost use Rattle.larch_prove_invariant.specs.ProveMeaningPlans.{Implication, closed_by};
ghost use Rattle.larch_term.specs.Tree.{Tree};
ghost use Rattle.larch_term.specs.Truth.{truth};

use crate::leave::Leave;
use crate::lefts::{only_number, shared_box};
use larch_base::Memory;
use larch_derive::{Builder, OpenBox};
use larch_prove_invariant::from_methods::finish_implication;
use larch_prove_invariant::from_prove_plans::closed_implication;
use larch_term::{Operator, Term};
use std::alloc::Global;

// A line that says that an implication is true.
pub(crate) fn end_implication(
    alloc: Global,
    builder: &mut Builder,
    goal: &Term,
    shared: Option<&OpenBox>,
    lefts: &[Leave],
) -> Result<u64, Memory>
    requires { (a : Built) × AreLeft a builder.old Implication goal.now (option_map (λ x. x.now) shared) lefts.now }
    ensures says { IfOk result (λ n. (a : Built) → AreLeft a builder.old Implication goal.now
        (option_map (λ x. x.now) shared.entry) lefts.now → HasEquation builder.new n goal.now truth) }
    ensures grows { OnOk result ((a : Built) → AreLeft a builder.old Implication goal.now
        (option_map (λ x. x.now) shared.entry) lefts.now → Grows a builder.new) }
{
    let around = shared_box(shared);
    let number = only_number(lefts);
    let closed = closed_goal(alloc, goal, around.constants.as_slice())?;
    finish_implication(alloc, builder, goal, &closed, around.number, number)
}

// An implication with constants in the places of its premise's variables, in order.
fn closed_goal(alloc: Global, goal: &Term, constants: &[Operator]) -> Result<Term, Memory>
    requires { (p : Tree) × ((q : Tree) × (goal.now ≡ implication p q)) }
    ensures { IfOk result (λ t. (p q : Tree) → goal.now ≡ implication p q → t ≡ closed_by p constants.now goal.now) }
{
    match closed_implication(alloc, goal, constants)? {
        Some(closed) => Ok(closed),
        None => unreachable!(),
    }
}
