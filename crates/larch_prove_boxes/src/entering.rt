ghost use Rattle.std.specs.Prelude.{◌≡◌, [], ◌∷◌, List, Contains, Some, IfOk, OnOk, if◌then◌else◌};
ghost use Rattle.std.specs.List.{AllZip};
ghost use Rattle.larch_term.specs.Operator.{PlainOperator};
ghost use Rattle.larch_term.specs.declared.statement.Statement.{Statement};
ghost use Rattle.larch_term.specs.declared.statement.Theory.{Theory};
ghost use Rattle.larch_derive.specs.Predicates.{Extends, HasStatement, Known};
ghost use Rattle.larch_derive.specs.declared.builder.Builder.{Builder as Built};
ghost use Rattle.larch_derive.specs.declared.open_box.OpenBox.{OpenBox as Opened};
ghost use Rattle.larch_prove_invariant.specs.DeriveBoxesBoxes.{IsOpen};
ghost use Rattle.larch_prove_invariant.specs.MethodsOpening.{MayBegin};
ghost use Rattle.larch_prove_invariant.specs.ProveMeaningLevels.{Level};
ghost use Rattle.larch_prove_invariant.specs.ProveMeaningPlans.{Method as PlainMethod, Subgoal as PlainSubgoal};
ghost use Rattle.larch_prove_invariant.specs.ProvePlansPlanning.{method_of, subgoal_of};
ghost use Rattle.larch_prove_invariant.specs.Book.{Kept, Running};
ghost use Rattle.larch_prove_invariant.specs.Holding.{HoldsLevels, entrances, own_shape};
ghost use Rattle.larch_prove_boxes.specs.Entering.{IsEntrance, IsKnownInside};

use larch_base::{Memory, Sequence};
use larch_certificate::Numbers;
use larch_derive::{Builder, OpenBox};
use larch_prove_invariant::from_derive_boxes::push_hyp;
use larch_prove_invariant::from_derive_lines::push_refl;
use larch_prove_invariant::from_methods::open_subgoal;
use larch_prove_invariant::from_prove_plans::{Method, Subgoal};
use larch_term::{Statements, Term};
use std::alloc::Global;

/// How a subgoal is entered: the box that is opened for it, if its method opens one; the lines that say its hypotheses,
/// in order; and the line that says that its goal equals itself.
#[derive(Drop)]
pub struct Entrance {
    pub opened: Option<OpenBox>,
    pub hypotheses: Numbers,
    pub way: u64,
}

/// Enters a subgoal of the method that runs on the current level. A refused call may leave lines and a box behind.
pub fn enter_subgoal(
    alloc: Global,
    builder: &mut Builder,
    method: &Method,
    subgoal: &Subgoal,
) -> Result<Entrance, Memory>
    ensures { IfOk result (λ e. (t : Theory) (s : Statement) (cs : List PlainOperator) (levels : List Level)
        (k : Kept) (ks : List Kept) (r : Running) (g : PlainSubgoal) → HoldsLevels t s builder.old cs levels (k ∷ ks)
        → k.book.running ≡ Some r → r.method ≡ method_of method.now → Contains r.plan.subgoals g
        → subgoal.now ≡ subgoal_of g → IsEntrance builder.old builder.new r.method g e) }
{
    if opens_boxes(method) {
        return enter_box(alloc, builder, subgoal);
    }
    enter_bare(alloc, builder, &subgoal.goal)
}

// Whether a method proves its subgoals in boxes.
fn opens_boxes(method: &Method) -> bool
    ensures { (g : PlainSubgoal) → entrances (method_of method.now) g
        ≡ (if result then own_shape g ∷ [] else []) }
{
    match method {
        Method::Conjunction => false,
        Method::Cases(_) => true,
        Method::Implication => true,
        Method::Contradiction => true,
        Method::Induction(_) => true,
        Method::Partition => true,
    }
}

// In a box of its own.
fn enter_box(alloc: Global, builder: &mut Builder, subgoal: &Subgoal) -> Result<Entrance, Memory>
    ensures { IfOk result (λ e. (method : PlainMethod) (g : PlainSubgoal) → subgoal.now ≡ subgoal_of g
        → entrances method g ≡ own_shape g ∷ [] → MayBegin builder.old g → IsKnownInside builder.old g
        → IsEntrance builder.old builder.new method g e) }
{
    let opened = open_subgoal(alloc, builder, subgoal)?;
    let way = push_refl(builder, &subgoal.goal)?;
    let hypotheses = push_hypotheses(alloc, builder, opened.number, &subgoal.hypotheses)?;
    Ok(Entrance {
        opened: Some(opened),
        hypotheses,
        way,
    })
}

// Without a box.
fn enter_bare(alloc: Global, builder: &mut Builder, goal: &Term) -> Result<Entrance, Memory>
    ensures { IfOk result (λ e. (method : PlainMethod) (g : PlainSubgoal) → goal.now ≡ g.goal → g.hypotheses ≡ []
        → entrances method g ≡ [] → Known builder.old g.goal → IsEntrance builder.old builder.new method g e) }
{
    let way = push_refl(builder, goal)?;
    Ok(Entrance {
        opened: None,
        hypotheses: Sequence::new(alloc),
        way,
    })
}

// The lines that say the hypotheses of the open box with a number, in order.
pub(crate) fn push_hypotheses(
    alloc: Global,
    builder: &mut Builder,
    number: u64,
    hypotheses: &Statements,
) -> Result<Numbers, Memory>
    ensures says { IfOk result (λ lines. (x : Opened) → x.number ≡ number → IsOpen builder.old x hypotheses.now
        → AllZip (λ s n. HasStatement builder.new n s) hypotheses.now lines) }
    ensures extends { OnOk result ((x : Opened) → x.number ≡ number → IsOpen builder.old x hypotheses.now
        → Extends builder.old builder.new) }
{
    let mut lines = Sequence::new(alloc);
    for index in 0..hypotheses.as_slice().len() {
        let line = push_hyp(builder, number, index as u64 + 1)?;
        lines.push(line)?;
    }
    Ok(lines)
}
