//! Laws on levels: how they are entered, worked on and left. No function here does anything.
ghost use Rattle.std.specs.Prelude.{◌≡◌, ℕ, List, [], ◌∷◌, ◌++◌, map, All, None, Some};
ghost use Rattle.larch_term.specs.Tree.{Tree};
ghost use Rattle.larch_term.specs.declared.statement.Statement.{Statement};
ghost use Rattle.larch_term.specs.declared.statement.Statement.TheVariants.{Equation};
ghost use Rattle.larch_term.specs.declared.statement.Theory.{Theory};
ghost use Rattle.larch_derive.specs.Builder.{boxes_in, theory_in};
ghost use Rattle.larch_derive.specs.Predicates.{Grows, HasEquation, HasNoBadLine};
ghost use Rattle.larch_derive.specs.declared.builder.Builder.{Builder};
ghost use Rattle.larch_methods.specs.DeriveBoxesBoxes.{HasResult};
ghost use Rattle.larch_methods.specs.Clauses.{IsSupposing};
ghost use Rattle.larch_methods.specs.Opening.{MayBeginAll};
ghost use Rattle.larch_methods.specs.ProveMeaningPlans.{Subgoal};
ghost use Rattle.larch_prove_invariant.specs.Book.{IsWorkedOn, Kept, Left, Rests, Running, SupposingBox, all_boxes};
ghost use Rattle.larch_prove_invariant.specs.Book.{next_running, own_boxes, with_extra, with_running};
ghost use Rattle.larch_prove_invariant.specs.Holding.{HasFacts, HasLeft, Holds, IsEntered, IsPlanned, IsThere, Says};
ghost use Rattle.larch_prove_invariant.specs.Holding.{Through};
ghost use Rattle.larch_prove_invariant.specs.Leaving.{IsClosedWith, Leaving};

/// What is held of levels is held still where the builder has grown; and no line is bad there.
pub fn growing_keeps_levels()
    ensures levels { (t : Theory) (s : Statement) (b c : Builder) (ks : List Kept) → Grows b c → Holds t s b ks
        → Holds t s c ks }
    ensures stands { (t : Theory) (s : Statement) (b : Builder) (ks : List Kept) → Holds t s b ks → HasNoBadLine b }
{}

/// The boxes that are open are those of the levels, in order, and their hypotheses can be cited.
pub fn boxes_are_open()
    ensures theory { (t : Theory) (s : Statement) (b : Builder) (ks : List Kept) → Holds t s b ks → theory_in b ≡ t }
    ensures order { (t : Theory) (s : Statement) (b : Builder) (ks : List Kept) → Holds t s b ks
        → boxes_in b ≡ map (λ x. x.box) (all_boxes ks) }
    ensures hypotheses { (t : Theory) (s : Statement) (b : Builder) (ks : List Kept) → Holds t s b ks
        → All (IsThere b) (all_boxes ks) }
{}

/// The facts of the current level, and how its first goal became the present one, are said where the builder stands,
/// also inside of boxes that are opened there.
pub fn levels_are_said()
    ensures current { (t : Theory) (s : Statement) (b : Builder) (k : Kept) (ks : List Kept) → Holds t s b (k ∷ ks)
        → Says b k }
    ensures inside { (t : Theory) (s : Statement) (b c : Builder) (xs : List SupposingBox) (k : Kept) (ks : List Kept)
        → Holds t s b (k ∷ ks) → Through b xs c → HasFacts c k.level.facts.rules k.book.lines }
{}

/// Where lines alone are added, the current level may have other facts and another goal, if lines say these; those
/// below stay held.
pub fn lines_change_levels()
    ensures { (t : Theory) (s : Statement) (b c : Builder) (k j : Kept) (ks : List Kept) → Grows b c → IsWorkedOn k j
        → Says c j → Holds t s b (k ∷ ks) → Holds t s c (j ∷ ks) }
{}

/// On a level on which no method runs a box may be opened for a constant whose own box isn't open.
pub fn extra_boxes_are_opened()
    ensures { (t : Theory) (s : Statement) (b c : Builder) (x : SupposingBox) (k : Kept) (ks : List Kept)
        → Through b (x ∷ []) c → k.book.running ≡ None → Holds t s b (k ∷ ks) → Holds t s c (with_extra x k ∷ ks) }
{}

/// A level is put upon others for a subgoal, in its box if it has one, or for a formula that a command proves; and upon
/// none for what is to be proved, in the box of a clause. Where there is no level, the builder stands at its start. The
/// level has no box for a constant yet, so its first goal can be written without one.
pub fn levels_are_entered()
    ensures { (t : Theory) (s : Statement) (b c : Builder) (k : Kept) (ks : List Kept) → Holds t s b ks
        → IsEntered s ks k → Rests k → k.book.extras ≡ [] → Through b (own_boxes k.book) c → Says c k
        → Holds t s c (k ∷ ks) }
{}

/// Boxes are closed from the innermost on: one that is closed with what a line says has it as its result. Or by calls:
/// outside of the innermost box a builder stood at the same levels, from which the box was opened; what grows from
/// there has left it. When all are closed, what was held of the levels below is held again.
pub fn boxes_are_closed()
    ensures closed { (t : Theory) (s : Statement) (b c : Builder) (xs : List SupposingBox) (x : SupposingBox)
        (ks : List Kept) (n : ℕ) (l r : Tree) → Leaving t s b (xs ++ x ∷ []) ks → HasEquation b n l r
        → IsClosedWith b c n → Leaving t s c xs ks × HasResult c x.box x.hypotheses (Equation l r) }
    ensures opened { (t : Theory) (s : Statement) (b : Builder) (xs : List SupposingBox) (x : SupposingBox)
        (ks : List Kept) → Leaving t s b (xs ++ x ∷ []) ks
        → (a : Builder) × (Leaving t s a xs ks × IsSupposing a b x.box x.hypotheses) }
    ensures grows { (t : Theory) (s : Statement) (b c : Builder) (xs : List SupposingBox) (ks : List Kept) → Grows b c
        → Leaving t s b xs ks → Leaving t s c xs ks }
    ensures below { (t : Theory) (s : Statement) (b : Builder) (ks : List Kept) → Leaving t s b [] ks → Holds t s b ks }
{}

/// A method begins with its shared box opened; while it runs, the boxes of its subgoals may be opened; behind a subgoal
/// that was left the next one is opened.
pub fn methods_run()
    ensures begins { (t : Theory) (s : Statement) (b c : Builder) (k : Kept) (ks : List Kept) (r : Running)
        (waiting : List Subgoal) → k.book.running ≡ None → Through b r.shared c → IsPlanned b c k.level.goal r
        → r.done ≡ [] → r.plan.subgoals ≡ r.now ∷ waiting → Holds t s b (k ∷ ks)
        → Holds t s c (with_running r waiting k ∷ ks) }
    ensures opens { (t : Theory) (s : Statement) (b : Builder) (k : Kept) (ks : List Kept) (r : Running)
        → Holds t s b (k ∷ ks) → k.book.running ≡ Some r → MayBeginAll b r.plan }
    ensures follows { (t : Theory) (s : Statement) (b : Builder) (k : Kept) (ks : List Kept) (r : Running)
        (left : Left) (next : Subgoal) (waiting : List Subgoal) → Holds t s b (k ∷ ks) → k.book.running ≡ Some r
        → k.level.remaining ≡ next ∷ waiting → HasLeft b r.method r.now left
        → Holds t s b (with_running (next_running left next r) waiting k ∷ ks) }
{}
