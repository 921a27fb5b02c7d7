ghost use Rattle.std.specs.Prelude.{◌≡◌, [], ◌∷◌, IfOk, OnOk, OnErr};
ghost use Rattle.larch_calculus.specs.Formula.{falsity};
ghost use Rattle.larch_derive.specs.Predicates.{Extends, Grows, HasEquation};
ghost use Rattle.larch_derive.specs.declared.builder.Builder.{Builder as Built};
ghost use Rattle.larch_derive.specs.declared.open_box.OpenBox.{OpenBox};
ghost use Rattle.larch_derive_clauses.specs.DeriveBoxesBoxes.{IsOpen};
ghost use Rattle.larch_methods.specs.Methods.{ByContradiction};
ghost use Rattle.larch_term.specs.Tree.{Tree};
ghost use Rattle.larch_term.specs.Truth.{truth};
ghost use Rattle.larch_term.specs.declared.statement.Statement.TheVariants.{Equation as equation};

use crate::boxes::{trivial_box, write_freed};
use crate::refusals::undo_refused;
use larch_base::Memory;
use larch_derive::Builder;
use larch_derive_clauses::from_derive_boxes::{push_cases, push_hyp};
use larch_derive_lines::push_trans;
use larch_term::{Term, variables};
use std::alloc::Global;

/// A line that says that the formula is true of which an open box supposes that it is false, by a line that says that
/// false is true. A refused call may leave a line behind that isn't bad.
#[tactic(auto, using(larch_derive::proofs::Growth::extends_same))]
pub fn push_contradicted(
    alloc: Global,
    builder: &mut Builder,
    number: u64,
    line: u64,
) -> Result<u64, Memory>
    ensures says { IfOk result (λ n. (x : OpenBox) (g : Tree) → x.number ≡ number
        → IsOpen builder.old x (equation g falsity ∷ []) → HasEquation builder.old line falsity truth
        → HasEquation builder.new n g truth) }
    ensures extends { (x : OpenBox) (g : Tree) → x.number ≡ number
        → IsOpen builder.old x (equation g falsity ∷ []) → HasEquation builder.old line falsity truth
        → Extends builder.old builder.new }
{
    let supposed = push_hyp(builder, number, 1)?;
    let shown = push_trans(alloc, builder, supposed, line)?;
    Ok(shown)
}

/// A line that says that the goal is true, by contradiction: by the goal with constants in the places of its variables,
/// the box of these constants, which is closed, and the closed box in which the goal is supposed to be false. A refused
/// call changes nothing, so the box of the constants is open still.
pub fn finish_contradiction(
    alloc: Global,
    builder: &mut Builder,
    goal: &Term,
    closed: &Term,
    shared: u64,
    number: u64,
) -> Result<u64, Memory>
    ensures says { IfOk result (λ n. (a : Built) → ByContradiction a builder.old goal.now closed.now shared number
        → HasEquation builder.new n goal.now truth) }
    ensures grows { OnOk result ((a : Built) → ByContradiction a builder.old goal.now closed.now shared number
        → Grows a builder.new) }
    ensures err { OnErr result (builder.new ≡ builder.old) }
{
    let kept = builder.copy()?;
    let made = write_contradiction(alloc, builder, goal, closed, shared, number);
    let shown = undo_refused(builder, kept, made)?;
    Ok(shown)
}

// The same, but a refused call may leave boxes open that weren't, and the box of the constants closed.
fn write_contradiction(
    alloc: Global,
    builder: &mut Builder,
    goal: &Term,
    closed: &Term,
    shared: u64,
    number: u64,
) -> Result<u64, Memory>
    ensures says { IfOk result (λ n. (a : Built) → ByContradiction a builder.old goal.now closed.now shared number
        → HasEquation builder.new n goal.now truth) }
    ensures grows { OnOk result ((a : Built) → ByContradiction a builder.old goal.now closed.now shared number
        → Grows a builder.new) }
{
    let variables = variables(alloc, goal)?;
    let supposed = trivial_box(alloc, builder, closed)?;
    let line = push_cases(builder, supposed, number)?;
    let freed = write_freed(alloc, builder, shared, line, variables.as_slice())?;
    Ok(freed)
}
