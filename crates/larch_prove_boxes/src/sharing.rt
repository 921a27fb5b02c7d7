ghost use Rattle.std.specs.Prelude.{◌≡◌, ◌∷◌, [], if◌then◌else◌, List, map, Ok, IfOk};
ghost use Rattle.larch_prove_boxes.specs.BoxLists.{box_list, boxes_with};
ghost use Rattle.larch_prove_invariant.specs.Book.{Kept, SupposingBox};
ghost use Rattle.larch_prove_invariant.specs.Holding.{HoldsProof, IsKnownFor, Through, making, shape_of, shared_shapes};
ghost use Rattle.larch_prove_invariant.specs.ProveMeaningLevels.{Proof};
ghost use Rattle.larch_prove_invariant.specs.ProveMeaningPlans as defined;
ghost use Rattle.larch_prove_invariant.specs.ProveMeaningSteps.{setting_of};
ghost use Rattle.larch_prove_invariant.specs.ProveMeaningWellSorted.{IsWellSortedProof};
ghost use Rattle.larch_prove_invariant.specs.ProvePlansPlanning.{method_of, plan_of};
ghost use Rattle.larch_term.specs.declared.statement.Statement.{Statement};

use larch_base::Memory;
use larch_derive::{Builder, OpenBox};
use larch_prove_invariant::from_methods::open_constants;
use larch_prove_invariant::from_prove_plans::{Method, Plan};
use std::alloc::Global;

/// Opens the box that all subgoals of a plan share, if the method has one, and answers it: it makes the plan's shared
/// constants, if only none, and supposes nothing.
pub fn open_shared(
    alloc: Global,
    builder: &mut Builder,
    method: &Method,
    plan: &Plan,
) -> Result<Option<OpenBox>, Memory>
    ensures opens { IfOk result (λ shared. (s : Statement) (p : Proof) (k : Kept) (ks : List Kept)
        (chosen : defined.Method) (made : defined.Plan) → HoldsProof s builder.old p (k ∷ ks) → IsWellSortedProof p
        → chosen ≡ method_of method.now → IsKnownFor builder.old chosen
        → defined.plan (setting_of p) p.current.goal chosen ≡ Ok made → plan.now ≡ plan_of made
        → (xs : List SupposingBox) × ((boxes_with xs ≡ box_list shared)
        × ((map shape_of xs ≡ shared_shapes chosen made) × Through builder.old xs builder.new))) }
{
    if !has_shared_box(method) {
        return Ok(None);
    }
    let opened = open_constants(alloc, builder, &plan.constants)?;
    Ok(Some(opened))
}

// Whether the subgoals of a method share a box.
fn has_shared_box(method: &Method) -> bool
    ensures { (made : defined.Plan) → shared_shapes (method_of method.now) made
        ≡ (if result then making made.constants ∷ [] else []) }
{
    match method {
        Method::Cases(_) | Method::Implication | Method::Contradiction => true,
        Method::Conjunction | Method::Induction(_) | Method::Partition => false,
    }
}
