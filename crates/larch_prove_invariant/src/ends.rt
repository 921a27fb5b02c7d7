//! Laws on ends: of methods, of levels and of proofs. No function here does anything.
ghost use Rattle.std.specs.Prelude.{◌≡◌, ◌≢◌, ℕ, List, [], ◌∷◌, length, map, Contains, None, Ok, Some};
ghost use Rattle.larch_term.specs.Operator.{PlainOperator};
ghost use Rattle.larch_term.specs.Statement.{IsStatementOver};
ghost use Rattle.larch_term.specs.Tree.{Tree};
ghost use Rattle.larch_term.specs.Truth.{truth};
ghost use Rattle.larch_term.specs.declared.statement.Statement.{Statement};
ghost use Rattle.larch_term.specs.declared.statement.Statement.TheVariants.{Equation, Generated, Partitioned};
ghost use Rattle.larch_term.specs.declared.statement.Theory.{Theory};
ghost use Rattle.larch_calculus.specs.Formula.{falsity, formula, implication};
ghost use Rattle.larch_derive.specs.VerifyMeaningAcceptance.{Accepts};
ghost use Rattle.larch_derive.specs.VerifyMeaningLastLine.{EndsWithoutStatedClause};
ghost use Rattle.larch_derive.specs.Builder.{lines_in, theory_in};
ghost use Rattle.larch_derive.specs.Finished.{IsFinished};
ghost use Rattle.larch_derive.specs.Predicates.{Grows, HasEquation, HasStatement};
ghost use Rattle.larch_derive.specs.declared.builder.Builder.{Builder};
ghost use Rattle.larch_methods.specs.DeriveBoxesBoxes.{HasResult, IsOpen};
ghost use Rattle.larch_methods.specs.Methods.{IsKnownFormula};
ghost use Rattle.larch_methods.specs.ProveMeaningLevels.{Level};
ghost use Rattle.larch_methods.specs.ProveMeaningPlans.{Cases, Conjunction, Contradiction, Implication, Induction};
ghost use Rattle.larch_methods.specs.ProveMeaningPlans.{Partition, Plan, Setting, Subgoal, closed_by, holds, plan};
ghost use Rattle.larch_methods.specs.ProvePlansClauseGoals.{generation_goal, partition_goal};
ghost use Rattle.larch_prove_invariant.specs.Book.{AtLine, Book, InBox, Kept, Left, Running, SupposingBox, all_left};
ghost use Rattle.larch_prove_invariant.specs.Ending.{EndsByCases, EndsByConjunction, EndsByContradiction};
ghost use Rattle.larch_prove_invariant.specs.Ending.{EndsByImplication, EndsByInduction, EndsByPartition};
ghost use Rattle.larch_prove_invariant.specs.Ending.{EndsGeneration, EndsPartition, HasAllLeft, StandsAt};
ghost use Rattle.larch_prove_invariant.specs.Holding.{EntersClause, EntersSubgoal, HasLeft, Holds, HoldsLevels};
ghost use Rattle.larch_prove_invariant.specs.Holding.{IsThere, Through, entrances, premise, said_of, shape_of};
ghost use Rattle.larch_prove_invariant.specs.Leaving.{Leaving};

/// A level is left from its own boxes: where no method runs the builder stands in them; where the last subgoal of a
/// method was left, a builder stood in them just before the method's box was opened, and said of the level what there
/// was to say. What grows from it, as the method's end does, stands there too.
pub fn levels_are_left()
    ensures idle { (t : Theory) (s : Statement) (b : Builder) (k : Kept) (ks : List Kept) → k.book.running ≡ None
        → Holds t s b (k ∷ ks) → StandsAt t s b k ks }
    ensures method { (t : Theory) (s : Statement) (b : Builder) (k : Kept) (ks : List Kept) (r : Running) (left : Left)
        → Holds t s b (k ∷ ks) → k.book.running ≡ Some r → k.level.remaining ≡ [] → HasLeft b r.method r.now left
        → (a : Builder) × (StandsAt t s a k ks × HasAllLeft a b k.level.goal r (all_left r left)) }
    ensures grows { (t : Theory) (s : Statement) (b c : Builder) (k : Kept) (ks : List Kept) → Grows b c
        → StandsAt t s b k ks → StandsAt t s c k ks }
{}

/// What was left of a method's subgoals is what the call of its end takes.
pub fn methods_end()
    ensures cases { (a b : Builder) (f goal : Tree) (r : Running) (lefts : List Left) → r.method ≡ Cases f
        → HasAllLeft a b goal r lefts → EndsByCases a b f goal r.shared lefts }
    ensures implication { (a b : Builder) (goal : Tree) (r : Running) (lefts : List Left) → r.method ≡ Implication
        → HasAllLeft a b goal r lefts → EndsByImplication a b goal r.shared lefts }
    ensures contradiction { (a b : Builder) (goal : Tree) (r : Running) (lefts : List Left) → r.method ≡ Contradiction
        → HasAllLeft a b goal r lefts → EndsByContradiction a b goal r.shared lefts }
    ensures conjunction { (a b : Builder) (goal : Tree) (r : Running) (lefts : List Left) → r.method ≡ Conjunction
        → HasAllLeft a b goal r lefts → EndsByConjunction b goal lefts }
    ensures induction { (a b : Builder) (goal : Tree) (n : List ℕ) (r : Running) (lefts : List Left)
        → r.method ≡ Induction n → HasAllLeft a b goal r lefts → EndsByInduction b r.setting goal n lefts }
    ensures partition { (a b : Builder) (goal : Tree) (r : Running) (lefts : List Left) → r.method ≡ Partition
        → HasAllLeft a b goal r lefts → EndsByPartition b r.setting goal lefts }
{}

/// A subgoal is left by its box, where that is closed with what must be said of it, or if it has none by a line.
pub fn subgoals_are_left()
    ensures boxed { (c : Builder) (r : Running) (k : Book) (x : SupposingBox) → EntersSubgoal r k
        → k.entrance ≡ x ∷ []
        → HasResult c x.box x.hypotheses (Equation (said_of r.method r.now).left (said_of r.method r.now).right)
        → HasLeft c r.method r.now (InBox x.box) }
    ensures bare { (c : Builder) (r : Running) (k : Book) (n : ℕ) → EntersSubgoal r k → k.entrance ≡ []
        → HasEquation c n (said_of r.method r.now).left (said_of r.method r.now).right
        → HasLeft c r.method r.now (AtLine n) }
{}

/// What must be said of a subgoal, in the form in which its lines are pushed, beside that its goal is true. Of an
/// implication, that one is true whose conclusion the goal is: it can be written in the subgoal's box, and is the
/// method's goal with the shared constants in it. Of a contradiction the goal is `false`, and what must be said is that
/// the formula is true of which the box supposes that it is false. Of an observation, the equation whose formula the
/// goal is.
pub fn subgoals_are_said()
    ensures implication { (t : Theory) (s : Statement) (b d : Builder) (cs : List PlainOperator) (levels : List Level)
        (k : Kept) (ks : List Kept) (r : Running) (g : Subgoal) (xs : List SupposingBox)
        → HoldsLevels t s b cs levels (k ∷ ks) → k.book.running ≡ Some r → r.method ≡ Implication
        → Contains r.plan.subgoals g → Through b xs d → map shape_of xs ≡ entrances r.method g
        → (said_of r.method g ≡ holds (implication (premise g.hypotheses) g.goal))
        × IsKnownFormula d (implication (premise g.hypotheses) g.goal) }
    ensures closed { (setting : Setting) (goal p q : Tree) (made : Plan) (g : Subgoal) → goal ≡ implication p q
        → plan setting goal Implication ≡ Ok made → Contains made.subgoals g
        → implication (premise g.hypotheses) g.goal ≡ closed_by p made.constants goal }
    ensures contradiction { (setting : Setting) (goal : Tree) (r : Running) (k : Book) (c : Builder)
        (x : SupposingBox) → plan setting goal r.method ≡ Ok r.plan → r.method ≡ Contradiction
        → Contains r.plan.subgoals r.now → EntersSubgoal r k → k.entrance ≡ x ∷ [] → IsThere c x
        → (k.first ≡ falsity) × ((said_of r.method r.now ≡ holds (premise r.now.hypotheses))
        × IsOpen c x.box (Equation (premise r.now.hypotheses) falsity ∷ [])) }
    ensures observation { (setting : Setting) (goal : Tree) (made : Plan) (g : Subgoal)
        → plan setting goal Partition ≡ Ok made → Contains made.subgoals g
        → g.goal ≡ formula (said_of Partition g).left (said_of Partition g).right }
{}

/// Where a clause is shown in its box, by a line that its goal is true, and all other boxes are closed, that is what
/// the call of its end takes.
pub fn clauses_end()
    ensures generation { (t : Theory) (s : Statement) (b : Builder) (n z : List ℕ) (fs : List PlainOperator)
        (k : Book) (line : ℕ) → EntersClause (generation_goal n z fs) k → Leaving t s b k.entrance []
        → IsStatementOver t.operators (Generated z fs) → HasEquation b line k.first truth
        → EndsGeneration t s b z fs k.entrance line }
    ensures partition { (t : Theory) (s : Statement) (b : Builder) (n m z : List ℕ) (os : List PlainOperator)
        (k : Book) (line : ℕ) → n ≢ m → EntersClause (partition_goal n m z os) k → Leaving t s b k.entrance []
        → IsStatementOver t.operators (Partitioned z os) → HasEquation b line k.first truth
        → EndsPartition t s b z os k.entrance line }
{}

/// Where all boxes of the lowest level are closed, the lines are a certificate that is accepted for what the last of
/// them says: for an equation as for a clause. It can be handed over, too: it can be written, and its last line isn't
/// an axiom line of a clause, be it that it says an equation, or that the call that ended a clause wrote another one.
pub fn proofs_are_accepted()
    ensures accepted { (t : Theory) (s : Statement) (c : Builder) (u : Statement) (n : ℕ) → Leaving t s c [] []
        → HasStatement c n u → n ≡ length (lines_in c) → Accepts t u (lines_in c) }
    ensures equation { (t : Theory) (s : Statement) (c : Builder) (l r : Tree) (n : ℕ) → Leaving t s c [] []
        → HasEquation c n l r → n ≡ length (lines_in c) → IsFinished t (Equation l r) (lines_in c) }
    ensures clause { (t : Theory) (s : Statement) (c : Builder) (u : Statement) (n : ℕ) → Leaving t s c [] []
        → HasStatement c n u → n ≡ length (lines_in c) → EndsWithoutStatedClause (theory_in c) (lines_in c)
        → IsFinished t u (lines_in c) }
{}
