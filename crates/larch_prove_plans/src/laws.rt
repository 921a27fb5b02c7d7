//! What holds of plans, for crates above to cite. No function here does anything.
ghost use Rattle.std.specs.Prelude.{◌≡◌, ℕ, List, map, Ok};
ghost use Rattle.larch_prove_plans.specs.Planning.{method_of, plain_subgoal, plan_of, plan_answer, setting_over};
ghost use Rattle.larch_prove_plans.specs.Planning.{subgoal_of};
ghost use Rattle.larch_prove_plans.specs.declared.subgoals.Method.{Method};
ghost use Rattle.larch_prove_plans.specs.declared.subgoals.Plan.{Plan};
ghost use Rattle.larch_prove_meaning.specs.Plans as defined;
ghost use Rattle.larch_term.specs.Tree.{Tree};
ghost use Rattle.larch_term.specs.declared.statement.Theory.{Theory};

/// A plan that is answered is the defined one.
pub fn plans_are_defined()
    ensures { (t : Theory) (taken : List (List ℕ)) (goal : Tree) (method : Method) (made : Plan)
        → plan_answer t taken goal method ≡ Ok made
        → (p : defined.Plan) × ((defined.plan (setting_over t taken) goal (method_of method) ≡ Ok p)
        × (made ≡ plan_of p)) }
{}

/// A subgoal whose hypotheses are statements is that of a plan with their sides, and no other's.
pub fn subgoals_are_plain()
    ensures one { (s : defined.Subgoal) → plain_subgoal (subgoal_of s) ≡ s }
    ensures all { (ss : List defined.Subgoal) → map plain_subgoal (map subgoal_of ss) ≡ ss }
{}
