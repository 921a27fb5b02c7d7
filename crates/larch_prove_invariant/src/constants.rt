//! Laws on the constants of a block. No function here does anything.
ghost use Rattle.std.specs.Prelude.{◌≡◌, ◌≢◌, List, [], ◌∷◌, ◌++◌, map, All, AllPairs, Contains, None, Ok, Some};
ghost use Rattle.std.specs.List.{flat_map};
ghost use Rattle.larch_term.specs.Operator.{PlainOperator};
ghost use Rattle.larch_term.specs.Tree.{Tree};
ghost use Rattle.larch_term.specs.declared.statement.Statement.{Statement};
ghost use Rattle.larch_term.specs.declared.statement.Theory.{Theory};
ghost use Rattle.larch_calculus.specs.Theories.{AreConstants, AreNew};
ghost use Rattle.larch_derive.specs.Builder.{boxes_in, theory_in};
ghost use Rattle.larch_derive.specs.Predicates.{AreOthers, Grows};
ghost use Rattle.larch_derive.specs.Words.{AreWordedOperators};
ghost use Rattle.larch_derive.specs.declared.builder.Builder.{Builder};
ghost use Rattle.larch_derive.specs.declared.open_box.OpenBox.{OpenBox};
ghost use Rattle.larch_methods.specs.DeriveBoxesBoxes.{AreOwnConstants, IsPart};
ghost use Rattle.larch_methods.specs.Opening.{HasOwnConstants};
ghost use Rattle.larch_methods.specs.ProveMeaningLevels.{Level, Proof, all_constants};
ghost use Rattle.larch_methods.specs.ProveMeaningPlans.{Method, Plan, Subgoal, plan};
ghost use Rattle.larch_methods.specs.ProveMeaningSteps.{setting_of};
ghost use Rattle.larch_methods.specs.ProveMeaningWellSorted.{IsWellSortedProof};
ghost use Rattle.larch_methods.specs.ProvePlansPlanning.{method_of, plan_answer, planned_by, setting_over};
ghost use Rattle.larch_methods.specs.ProvePlansSubgoalsMethod as planned;
ghost use Rattle.larch_prove_invariant.specs.Book.{IsWorkedOn, Kept, Left, Rests, Running, SupposingBox, levels_of};
ghost use Rattle.larch_prove_invariant.specs.Book.{made_in, next_running, own_boxes, with_extra, with_running};
ghost use Rattle.larch_prove_invariant.specs.Holding.{AreOwn, HasLeft, Holds, HoldsLevels, HoldsProof, IsEntered};
ghost use Rattle.larch_prove_invariant.specs.Holding.{IsKnownFor, IsPlanned, Says, Through, open_constants, shape_of};
ghost use Rattle.larch_prove_invariant.specs.Holding.{shared_shapes, theory_for};
ghost use Rattle.larch_prove_invariant.specs.Setting.{names_beside};
ghost use Rattle.larch_prove_invariant.specs.Leaving.{Leaving};

/// While a command is carried out, levels are held with the constants of the block: where the builder grows, where the
/// current level is worked on, where more constants are made, where a box is opened for one, where a method begins and
/// goes on, and where a level is entered or left. The first level begins with what its box makes.
pub fn levels_keep_constants()
    ensures starts { (t : Theory) (s : Statement) (b : Builder) (k : Kept) → Rests k → k.book.extras ≡ []
        → AreNew t (made_in k.book.entrance) → AreWordedOperators (made_in k.book.entrance) → Holds t s b (k ∷ [])
        → HoldsLevels t s b (made_in k.book.entrance) (k.level ∷ []) (k ∷ []) }
    ensures grows { (t : Theory) (s : Statement) (b c : Builder) (cs : List PlainOperator) (levels : List Level)
        (ks : List Kept) → Grows b c → HoldsLevels t s b cs levels ks → HoldsLevels t s c cs levels ks }
    ensures worked { (t : Theory) (s : Statement) (b c : Builder) (cs : List PlainOperator) (levels : List Level)
        (k j : Kept) (ks : List Kept) → Grows b c → IsWorkedOn k j → Says c j → HoldsLevels t s b cs levels (k ∷ ks)
        → HoldsLevels t s c cs (levels_of (j ∷ ks)) (j ∷ ks) }
    ensures made { (t : Theory) (s : Statement) (b : Builder) (cs ds : List PlainOperator) (levels : List Level)
        (ks : List Kept) → AreNew t (cs ++ ds) → AreConstants ds → AreWordedOperators ds
        → HoldsLevels t s b cs levels ks → HoldsLevels t s b (cs ++ ds) levels ks }
    ensures extra { (t : Theory) (s : Statement) (b c : Builder) (cs : List PlainOperator) (levels : List Level)
        (x : SupposingBox) (k : Kept) (ks : List Kept) → Through b (x ∷ []) c → k.book.running ≡ None
        → All (Contains cs) x.box.constants → AreOwn b x.box.constants → HoldsLevels t s b cs levels (k ∷ ks)
        → HoldsLevels t s c cs levels (with_extra x k ∷ ks) }
    ensures begins { (t : Theory) (s : Statement) (b c : Builder) (cs : List PlainOperator) (levels : List Level)
        (k : Kept) (ks : List Kept) (r : Running) (waiting : List Subgoal) → k.book.running ≡ None
        → Through b r.shared c → IsPlanned b c k.level.goal r → r.done ≡ [] → r.plan.subgoals ≡ r.now ∷ waiting
        → All (Contains cs) r.plan.constants → HoldsLevels t s b cs levels (k ∷ ks)
        → HoldsLevels t s c cs (levels_of (with_running r waiting k ∷ ks)) (with_running r waiting k ∷ ks) }
    ensures follows { (t : Theory) (s : Statement) (b : Builder) (cs : List PlainOperator) (levels : List Level)
        (k : Kept) (ks : List Kept) (r : Running) (left : Left) (next : Subgoal) (waiting : List Subgoal)
        → k.book.running ≡ Some r → k.level.remaining ≡ next ∷ waiting → HasLeft b r.method r.now left
        → HoldsLevels t s b cs levels (k ∷ ks)
        → HoldsLevels t s b cs (levels_of (with_running (next_running left next r) waiting k ∷ ks))
        (with_running (next_running left next r) waiting k ∷ ks) }
    ensures enters { (t : Theory) (s : Statement) (b c : Builder) (cs : List PlainOperator) (levels : List Level)
        (k j : Kept) (ks : List Kept) → IsEntered s (j ∷ ks) k → Rests k → k.book.extras ≡ []
        → Through b (own_boxes k.book) c → Says c k → All (Contains cs) (made_in (own_boxes k.book))
        → AreOwn b (made_in (own_boxes k.book)) → HoldsLevels t s b cs levels (j ∷ ks)
        → HoldsLevels t s c cs (k.level ∷ levels) (k ∷ j ∷ ks) }
    ensures leaves { (t : Theory) (s : Statement) (b c : Builder) (cs : List PlainOperator) (levels : List Level)
        (k j : Kept) (ks : List Kept) → Leaving t s c [] (j ∷ ks) → HoldsLevels t s b cs levels (k ∷ j ∷ ks)
        → HoldsLevels t s c cs (levels_of (j ∷ ks)) (j ∷ ks) }
{}

/// Where each constant of the open boxes stands once, the innermost of them may be closed and freed. The constants that
/// a plan's subgoals share stand for none of an open box, and those that it makes for each of them stand for none
/// either, the box of the shared ones included.
pub fn constants_are_apart()
    ensures innermost { (bs : List OpenBox) (x : OpenBox)
        → AllPairs (λ f g. f ≢ g) (flat_map (λ y. y.constants) (bs ++ x ∷ [])) → AreConstants x.constants
        → AreOwnConstants bs x }
    ensures shared { (s : Statement) (b : Builder) (p : Proof) (ks : List Kept) (method : Method) (made : Plan)
        → HoldsProof s b p ks → plan (setting_of p) p.current.goal method ≡ Ok made → AreOwn b made.constants }
    ensures subgoals { (s : Statement) (b c : Builder) (p : Proof) (ks : List Kept) (method : Method) (made : Plan)
        (shared : List SupposingBox) → HoldsProof s b p ks → plan (setting_of p) p.current.goal method ≡ Ok made
        → Through b shared c → map shape_of shared ≡ shared_shapes method made → HasOwnConstants c made }
    ensures parts { (t : Theory) (s : Statement) (b : Builder) (cs : List PlainOperator) (levels : List Level)
        (ks : List Kept) → HoldsLevels t s b cs levels ks → All IsPart cs × All IsPart (open_constants b) }
{}

/// In the middle of a step, when a plan is made: what it makes has new names beside the block's constants, is neither
/// the theory's nor built in, and its sorts are words. And a method whose shared box is opened has its plan.
pub fn constants_of_plans()
    ensures new { (p : Proof) (method : Method) (made : Plan) → AreNew p.theory p.constants
        → plan (setting_of p) p.current.goal method ≡ Ok made
        → AreNew p.theory (p.constants ++ all_constants made) }
    ensures others { (s : Statement) (b : Builder) (p : Proof) (ks : List Kept) (method : Method) (made : Plan)
        → HoldsProof s b p ks → plan (setting_of p) p.current.goal method ≡ Ok made
        → AreOthers (theory_in b) (all_constants made) }
    ensures words { (s : Statement) (b : Builder) (p : Proof) (k : Kept) (ks : List Kept) (method : Method)
        (made : Plan) → HoldsProof s b p (k ∷ ks) → IsWellSortedProof p → IsKnownFor b method
        → plan (setting_of p) p.current.goal method ≡ Ok made → AreWordedOperators (all_constants made) }
    ensures planned { (s : Statement) (b c : Builder) (p : Proof) (k : Kept) (ks : List Kept) (r : Running)
        → HoldsProof s b p (k ∷ ks) → IsWellSortedProof p → r.setting ≡ setting_of p
        → plan (setting_of p) p.current.goal r.method ≡ Ok r.plan → IsKnownFor b r.method
        → map shape_of r.shared ≡ shared_shapes r.method r.plan → Through b r.shared c
        → IsPlanned b c k.level.goal r }
{}

/// What a method looks at in a proof is what the call that plans looks at over the theory with the lemmas: beside the
/// theory's operators the names of the block's constants and of what is in scope are taken.
pub fn settings_agree()
    ensures setting { (p : Proof) → setting_over (theory_for p) (names_beside p) ≡ setting_of p }
    ensures plans { (p : Proof) (goal : Tree) (method : planned.Method)
        → plan_answer (theory_for p) (names_beside p) goal method
        ≡ planned_by (plan (setting_of p) goal (method_of method)) }
{}
