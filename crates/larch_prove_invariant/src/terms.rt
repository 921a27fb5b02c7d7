//! Laws on terms that can be written. No function here does anything.
ghost use Rattle.std.specs.Prelude.{◌≡◌, ℕ, List, ◌∷◌, ◌++◌, [], map, All, Contains, Some};
ghost use Rattle.larch_term.specs.Operator.{PlainOperator};
ghost use Rattle.larch_term.specs.Sorts.{IsTermOver, sort_of};
ghost use Rattle.larch_term.specs.Tree.{Tree};
ghost use Rattle.larch_term.specs.Variable.{occurrences};
ghost use Rattle.larch_term.specs.declared.statement.Statement.{Statement};
ghost use Rattle.larch_term.specs.declared.statement.Theory.{Theory};
ghost use Rattle.larch_term.specs.declared.variable.Variable.{Variable};
ghost use Rattle.larch_calculus.specs.Formula.{formula};
ghost use Rattle.larch_derive.specs.Builder.{boxes_in, theory_in};
ghost use Rattle.larch_derive.specs.Predicates.{HasEquation, HasNoBadLine, Known};
ghost use Rattle.larch_derive.specs.Words.{AreWordedOperators, IsWordedTerm};
ghost use Rattle.larch_derive.specs.declared.builder.Builder.{Builder};
ghost use Rattle.larch_derive.specs.declared.open_box.OpenBox.{OpenBox};
ghost use Rattle.larch_methods.specs.DeriveBoxesBoxes.{AreOwnConstants, IsPart};
ghost use Rattle.larch_methods.specs.Inside.{closed_in};
ghost use Rattle.larch_methods.specs.Methods.{IsKnownFormula};
ghost use Rattle.larch_methods.specs.ProveMeaningLevels.{Level, Proof};
ghost use Rattle.larch_methods.specs.ProveMeaningPlans.{Subgoal};
ghost use Rattle.larch_methods.specs.ProveMeaningWellSorted.{IsWellSortedProof};
ghost use Rattle.larch_prove_invariant.specs.Book.{Kept, Running, SupposingBox};
ghost use Rattle.larch_prove_invariant.specs.Holding.{AreOwn, HoldsLevels, HoldsProof, Through, entrances};
ghost use Rattle.larch_prove_invariant.specs.Holding.{open_constants, shape_of};
ghost use Rattle.larch_prove_invariant.specs.InWords.{IsWordedLevel, IsWordedProof};
ghost use Rattle.larch_prove_invariant.specs.Leaving.{Leaving};
ghost use Rattle.larch_prove_invariant.specs.Unopened.{unopened_in};

/// Terms in words over the theory's operators and the constants of open boxes can be written, and no others.
pub fn open_terms_are_known()
    ensures builder { (b : Builder) (a : Tree) → HasNoBadLine b → All IsPart (open_constants b)
        → IsTermOver ((theory_in b).operators ++ open_constants b) a → IsWordedTerm a → Known b a }
    ensures levels { (t : Theory) (s : Statement) (b : Builder) (cs : List PlainOperator) (levels : List Level)
        (ks : List Kept) (a : Tree) → HoldsLevels t s b cs levels ks
        → IsTermOver (t.operators ++ open_constants b) a → IsWordedTerm a → Known b a }
    ensures no_others { (b : Builder) (a : Tree) → Known b a
        → IsTermOver ((theory_in b).operators ++ open_constants b) a }
{}

/// The current goal can be written; and so can the goal of each subgoal of a running method, where its box is opened.
pub fn subgoals_are_known()
    ensures goal { (s : Statement) (b : Builder) (p : Proof) (k : Kept) (ks : List Kept) → HoldsProof s b p (k ∷ ks)
        → IsWellSortedProof p → IsKnownFormula b k.level.goal }
    ensures subgoal { (t : Theory) (s : Statement) (b d : Builder) (cs : List PlainOperator) (levels : List Level)
        (k : Kept) (ks : List Kept) (r : Running) (g : Subgoal) (xs : List SupposingBox)
        → HoldsLevels t s b cs levels (k ∷ ks) → k.book.running ≡ Some r → Contains r.plan.subgoals g → Through b xs d
        → map shape_of xs ≡ entrances r.method g → IsKnownFormula d g.goal }
{}

/// What a builder holds of levels is in words: their facts, their goals and the subgoals that are still to be opened;
/// and so are the constants of the block. So a command keeps a proof in words by what it keeps of the builder. The
/// formula of an equation in words is in words.
pub fn proofs_are_in_words()
    ensures levels { (t : Theory) (s : Statement) (b : Builder) (cs : List PlainOperator) (levels : List Level)
        (ks : List Kept) → HoldsLevels t s b cs levels ks → All IsWordedLevel levels × AreWordedOperators cs }
    ensures proof { (s : Statement) (b : Builder) (p : Proof) (ks : List Kept) → HoldsProof s b p ks
        → IsWordedProof p }
    ensures formula { (l r : Tree) → IsWordedTerm l → IsWordedTerm r → IsWordedTerm (formula l r) }
{}

/// The first goal of a level can be written outside of the level's boxes for constants. So where one of these boxes is
/// closed, the innermost first, and its constants are freed, which are its own, nothing changes: the goal stays as it
/// is where variables that it hasn't become constants. Both sides of what a line says have one sort.
pub fn first_goals_are_known()
    ensures known { (t : Theory) (s : Statement) (b c : Builder) (cs : List PlainOperator) (levels : List Level)
        (k : Kept) (ks : List Kept) (xs ys : List SupposingBox) → HoldsLevels t s b cs levels (k ∷ ks)
        → k.book.extras ≡ xs ++ ys → Leaving t s c (k.book.entrance ++ xs) ks → Known c k.book.first }
    ensures own { (t : Theory) (s : Statement) (b a : Builder) (cs : List PlainOperator) (levels : List Level)
        (k : Kept) (ks : List Kept) (xs ys : List SupposingBox) (x : SupposingBox)
        → HoldsLevels t s b cs levels (k ∷ ks) → k.book.extras ≡ xs ++ x ∷ ys
        → Leaving t s a (k.book.entrance ++ xs) ks → AreOwnConstants (boxes_in a) x.box }
    ensures stays { (vs : List Variable) (x : OpenBox) (t : Tree)
        → ((v : Variable) → Contains vs v → Contains (occurrences t) v → ⊥) → closed_in vs x t ≡ t }
    ensures sorts { (b : Builder) (n : ℕ) (l r : Tree) → HasEquation b n l r → sort_of r ≡ sort_of l }
{}

/// A term of a command names constants of the block, some of which may not be open. Each of these in turn is a box's
/// own when those before it are open; and when all are, the term can be written, if it is in words.
pub fn unopened_constants()
    ensures next { (block opened : List PlainOperator) (t : Tree) (done : List PlainOperator) (f : PlainOperator)
        (rest : List PlainOperator) → unopened_in block opened t ≡ done ++ f ∷ rest
        → Contains block f × (Contains (opened ++ done) f → ⊥) }
    ensures own { (t : Theory) (s : Statement) (b : Builder) (cs : List PlainOperator) (levels : List Level)
        (ks : List Kept) (f : PlainOperator) → HoldsLevels t s b cs levels ks → Contains cs f
        → (Contains (open_constants b) f → ⊥) → AreOwn b (f ∷ []) }
    ensures known { (t : Theory) (s : Statement) (c : Builder) (cs opened : List PlainOperator) (levels : List Level)
        (ks : List Kept) (a : Tree) → HoldsLevels t s c cs levels ks
        → open_constants c ≡ opened ++ unopened_in cs opened a → IsTermOver (t.operators ++ cs) a → IsWordedTerm a
        → Known c a }
{}
