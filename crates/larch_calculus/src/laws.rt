//! What holds of all derivations, for crates above to cite. No function here does anything.
ghost use Rattle.std.specs.Prelude.{◌≡◌, ◌↔◌, ◌<◌, ◌≤◌, ℕ, List, [], ◌∷◌, ◌++◌, map, length, All, Contains, Some};
ghost use Rattle.std.specs.List.{slice_get};
ghost use Rattle.larch_term.specs.Operator.{OperatorName, PlainOperator};
ghost use Rattle.larch_term.specs.Variable.{occurrences};
ghost use Rattle.larch_term.specs.Place.{at, put};
ghost use Rattle.larch_term.specs.Sorts.{sort_of, IsOver, IsTermOver};
ghost use Rattle.larch_term.specs.Statement.{IsStatementOver, IsTheory, statement_zero, IsWellSortedTheory};
ghost use Rattle.larch_term.specs.Substitution.{instance_of};
ghost use Rattle.larch_term.specs.Tree.{Tree, app};
ghost use Rattle.larch_term.specs.BuiltIn.{bool_sort};
ghost use Rattle.larch_term.specs.declared.variable.Variable.{Variable};
ghost use Rattle.larch_term.specs.declared.statement.Statement.{Statement};
ghost use Rattle.larch_term.specs.declared.statement.Statement.TheVariants.{Equation, Generated, Partitioned};
ghost use Rattle.larch_term.specs.declared.statement.Theory.{Theory};
ghost use Rattle.larch_calculus.specs.Boxes.{constants_from, IsOlder, IsOlderTerm, IsOlderStatement};
ghost use Rattle.larch_calculus.specs.Derivable.{Derivable, AreArguments};
ghost use Rattle.larch_calculus.specs.Formula.{constant, apply_one, apply_two, falsity, implication, formula};
ghost use Rattle.larch_term.specs.Truth.{truth};
ghost use Rattle.larch_calculus.specs.Freed.{free_constants, constants_for};
ghost use Rattle.larch_calculus.specs.Generation.{constant_terms, equation_at, generation_hypotheses};
ghost use Rattle.larch_calculus.specs.Generation.{induction_hypotheses};
ghost use Rattle.larch_calculus.specs.Identity.{IsIdentity};
ghost use Rattle.larch_calculus.specs.Letters.{two};
ghost use Rattle.larch_calculus.specs.Observation.{observations};
ghost use Rattle.larch_calculus.specs.Renaming.{IsFaithful, TakesBack, KeepsBuiltIn, RenamesBoxes, HasPlainNames};
ghost use Rattle.larch_calculus.specs.Renaming.{IsTranslation};
ghost use Rattle.larch_renaming.specs.Renaming.{Renaming, by_name, renamed_statement, renamed_theory};
ghost use Rattle.larch_calculus.specs.Theories.{IsTermOf, IsIncluded, IsPrefix, AreNew, AreConstants};
ghost use Rattle.larch_calculus.specs.Theories.{with_statements, extend};

/// An identity is well sorted, whatever the operators are.
pub fn identity_is_well_sorted()
    ensures { (fs : List PlainOperator) (a b : Tree) → IsIdentity a b → IsStatementOver fs (Equation a b) }
{}

/// An identity is derivable with any two terms of a sort for the variables x and y of that sort.
pub fn identity_with_terms()
    ensures { (t : Theory) (s : List ℕ) (a b c d : Tree) → IsTermOf t.operators s a → IsTermOf t.operators s b
        → IsIdentity c d → Derivable t (Equation (instance_of (two s a b) c) (instance_of (two s a b) d)) }
{}

/// What is derivable from a theory is well sorted over its operators.
pub fn derivable_is_well_sorted()
    ensures { (t : Theory) (s : Statement) → Derivable t s → IsStatementOver t.operators s }
{}

/// What is derivable from a theory is derivable from one that has all its operators and statements, as one has that
/// begins with them.
pub fn weakening()
    ensures included { (t u : Theory) (s : Statement) → IsWellSortedTheory t → IsIncluded t u → Derivable t s
        → Derivable u s }
    ensures prefix { (t u : Theory) (s : Statement) → IsWellSortedTheory t → IsPrefix t u → Derivable t s
        → Derivable u s }
{}

/// What is derivable with derivable statements added is derivable without them; and so is what is derivable from a
/// theory whose statements are derivable from another one with its operators.
pub fn cut()
    ensures added { (t : Theory) (ss : List Statement) (s : Statement) → IsWellSortedTheory t → All (Derivable t) ss
        → Derivable (with_statements t ss) s → Derivable t s }
    ensures theory { (t u : Theory) (s : Statement) → IsWellSortedTheory t → IsWellSortedTheory u
        → ((f : PlainOperator) → Contains t.operators f → Contains u.operators f) → All (Derivable u) t.statements
        → Derivable t s → Derivable u s }
{}

/// What is derivable from a theory is derivable, as a renaming makes it, from each theory that the first is translated
/// to, and so from what the theory becomes. A renaming that is taken back by another one changes nothing of what is
/// derivable. Other names are a renaming where they keep those of the built-in operators; and other names for constants
/// of boxes leave a theory that has plain names alone.
pub fn renaming()
    ensures translation { (r : Renaming) (t u : Theory) (s : Statement) → IsTranslation r t u → Derivable t s
        → Derivable u (renamed_statement r s) }
    ensures theory { (r : Renaming) (t : Theory) (s : Statement) → IsFaithful r → IsWellSortedTheory t → Derivable t s
        → Derivable (renamed_theory r t) (renamed_statement r s) }
    ensures both_ways { (r q : Renaming) (t : Theory) (s : Statement) → IsFaithful r → IsFaithful q → TakesBack q r
        → IsWellSortedTheory t → (Derivable t s ↔ Derivable (renamed_theory r t) (renamed_statement r s)) }
    ensures names { (new : OperatorName → OperatorName) → KeepsBuiltIn new → IsFaithful (by_name new) }
    ensures names_back { (new old : OperatorName → OperatorName) → ((n : OperatorName) → old (new n) ≡ n)
        → TakesBack (by_name old) (by_name new) }
    ensures boxes { (new : OperatorName → OperatorName) (t : Theory) (cs : List PlainOperator) (hs : List Statement)
        (s : Statement) → RenamesBoxes new → HasPlainNames t → IsWellSortedTheory t
        → All (IsStatementOver (extend t cs hs).operators) hs → Derivable (extend t cs hs) s
        → Derivable (extend t (map (by_name new).operator cs) (map (renamed_statement (by_name new)) hs))
        (renamed_statement (by_name new) s) }
    ensures boxes_both_ways { (new old : OperatorName → OperatorName) (t : Theory) (cs : List PlainOperator)
        (hs : List Statement) (s : Statement) → RenamesBoxes new → RenamesBoxes old
        → ((n : OperatorName) → old (new n) ≡ n) → HasPlainNames t → IsWellSortedTheory t
        → All (IsStatementOver (extend t cs hs).operators) hs
        → (Derivable (extend t cs hs) s
        ↔ Derivable (extend t (map (by_name new).operator cs) (map (renamed_statement (by_name new)) hs))
        (renamed_statement (by_name new) s)) }
{}

/// Equality goes on from term to term.
pub fn transitivity()
    ensures { (t : Theory) (a b c : Tree) → Derivable t (Equation a b) → Derivable t (Equation b c)
        → Derivable t (Equation a c) }
{}

/// Equals take each other's place on the right side of an equation, on its left side, and in any term.
pub fn replacing()
    ensures right { (t : Theory) (a b u v : Tree) (p : List ℕ) → at b p ≡ Some u → Derivable t (Equation a b)
        → Derivable t (Equation u v) → Derivable t (Equation a (put b p v)) }
    ensures left { (t : Theory) (a b u v : Tree) (p : List ℕ) → at a p ≡ Some u → Derivable t (Equation a b)
        → Derivable t (Equation u v) → Derivable t (Equation (put a p v) b) }
    ensures inside { (t : Theory) (a u v : Tree) (p : List ℕ) → IsTermOver t.operators a → at a p ≡ Some u
        → Derivable t (Equation u v) → Derivable t (Equation a (put a p v)) }
{}

/// Formulas are equal that imply each other, and formulas without variables that follow from each other.
pub fn equal_formulas()
    ensures implications { (t : Theory) (a b : Tree) → Derivable t (Equation (implication a b) truth)
        → Derivable t (Equation (implication b a) truth) → Derivable t (Equation a b) }
    ensures suppositions { (t : Theory) (a b : Tree) → IsWellSortedTheory t → IsTermOver t.operators a
        → sort_of a ≡ bool_sort → occurrences a ≡ []
        → IsTermOver t.operators b → sort_of b ≡ bool_sort → occurrences b ≡ []
        → Derivable (with_statements t (Equation a truth ∷ [])) (Equation b truth)
        → Derivable (with_statements t (Equation b truth ∷ [])) (Equation a truth) → Derivable t (Equation a b) }
{}

/// An equation and its formula are derivable from each other.
pub fn formula_line()
    ensures { (t : Theory) (a b : Tree) → (Derivable t (Equation a b) ↔ Derivable t (Equation (formula a b) truth)) }
{}

/// Where true equals false, each two terms of one sort are equal.
pub fn contradiction()
    ensures { (t : Theory) (a b : Tree) → Derivable t (Equation truth falsity)
        → IsStatementOver t.operators (Equation a b) → Derivable t (Equation a b) }
{}

/// A theory with no more operators is one with more statements alone, and with neither it is itself. What extends an
/// extension extends the theory. A theory with new operators, and with hypotheses that are well sorted over all of
/// them, is one again. It includes the theory, and the hypotheses are derivable from it.
pub fn extensions()
    ensures statements { (t : Theory) (ss : List Statement) → extend t [] ss ≡ with_statements t ss }
    ensures nothing { (t : Theory) → extend t [] [] ≡ t }
    ensures further { (t : Theory) (cs ds : List PlainOperator) (hs ks : List Statement)
        → extend (extend t cs hs) ds ks ≡ extend t (cs ++ ds) (hs ++ ks) }
    ensures well_sorted { (t : Theory) (cs : List PlainOperator) (hs : List Statement) → IsWellSortedTheory t
        → All (IsStatementOver (extend t cs hs).operators) hs → IsWellSortedTheory (extend t cs hs) }
    ensures theory { (t : Theory) (cs : List PlainOperator) (hs : List Statement) → IsTheory t → AreNew t cs
        → All (IsStatementOver (extend t cs hs).operators) hs → IsTheory (extend t cs hs) }
    ensures included { (t : Theory) (cs : List PlainOperator) (hs : List Statement) → IsIncluded t (extend t cs hs) }
    ensures hypotheses { (t : Theory) (cs : List PlainOperator) (hs : List Statement)
        → All (IsStatementOver (extend t cs hs).operators) hs → All (Derivable (extend t cs hs)) hs }
{}

/// What is supposed where a generation clause is shown, in an induction, and where a partition clause is shown, is well
/// sorted over the theory with the new operators.
pub fn suppositions()
    ensures generation { (t : Theory) (p : PlainOperator) (s : List ℕ) (fs : List PlainOperator) → p.domain ≡ s ∷ []
        → p.range ≡ bool_sort → IsStatementOver t.operators (Generated s fs)
        → All (IsStatementOver (extend t (p ∷ []) []).operators) (generation_hypotheses p s fs) }
    ensures induction { (t : Theory) (x s : List ℕ) (a b : Tree) (cs : List PlainOperator) → AreConstants cs
        → IsStatementOver t.operators (Equation a b)
        → All (IsStatementOver (extend t cs []).operators) (induction_hypotheses x s a b cs) }
    ensures partition { (t : Theory) (names : ℕ → List ℕ) (s : List ℕ) (os : List PlainOperator) (c d : PlainOperator)
        → AreConstants (c ∷ d ∷ []) → c.range ≡ s → d.range ≡ s → IsStatementOver t.operators (Partitioned s os)
        → All (IsStatementOver (extend t (c ∷ d ∷ []) []).operators) (observations names s os
        (constant c) (constant d)) }
    ensures observation { (fs : List PlainOperator) (names : ℕ → List ℕ) (s : List ℕ) (os : List PlainOperator)
        (a b : Tree) → IsStatementOver fs (Partitioned s os) → IsTermOf fs s a → IsTermOf fs s b
        → All (IsStatementOver fs) (observations names s os a b) }
{}

/// Constants of a box whose number is above those of all boxes in the theory are new; they may stand for an operator's
/// arguments in an induction. No box's number is above a number where the theory has plain names; where it is so for a
/// theory it is so for a higher number, with the constants of the box of that number, and without constants. And where
/// it is so for a theory it is for each statement over it; then the constants of a later box don't occur in it.
pub fn boxes()
    ensures constants { (b k : ℕ) (ss : List (List ℕ)) → AreConstants (constants_from b k ss) }
    ensures sorts { (b k : ℕ) (ss : List (List ℕ)) → map (λ c. c.range) (constants_from b k ss) ≡ ss }
    ensures new { (b c k : ℕ) (ss : List (List ℕ)) (t : Theory) → IsOlder b t → b < c
        → AreNew t (constants_from c k ss) }
    ensures arguments { (b c k : ℕ) (f : PlainOperator) (t : Theory) → IsOlder b t → b < c
        → AreArguments t f (constants_from c k f.domain) }
    ensures plain { (b : ℕ) (t : Theory) → HasPlainNames t → IsOlder b t }
    ensures later { (b c : ℕ) (t : Theory) → IsOlder b t → b ≤ c → IsOlder c t }
    ensures opened { (b c k : ℕ) (ss : List (List ℕ)) (hs : List Statement) (t : Theory) → IsOlder b t → b ≤ c
        → IsOlder c (extend t (constants_from c k ss) hs) }
    ensures statement { (b : ℕ) (t : Theory) (s : Statement) → IsOlder b t → IsStatementOver t.operators s
        → IsOlderStatement b s }
    ensures unchanged { (b c k : ℕ) (ss : List (List ℕ)) (vs : List Variable) → b < c → (a : Tree) → IsOlderTerm b a
        → free_constants (constants_from c k ss) vs a ≡ a }
    ensures left { (b : ℕ) (cs : List PlainOperator) (hs : List Statement) (t : Theory) → IsOlder b (extend t cs hs)
        → IsOlder b t }
{}

/// Variables that became constants become variables again, and a term without the constants stays as it is. A term
/// whose variables all became constants is closed. Both ways keep terms well sorted. So what holds of new constants
/// holds of all values, and the other way round.
pub fn freeing()
    ensures undone { (t : Theory) (cs : List PlainOperator) (vs : List Variable) (a : Tree) → AreNew t cs
        → IsOver t.operators a → free_constants cs vs (instance_of (constants_for vs cs) a) ≡ a }
    ensures unchanged { (t : Theory) (cs : List PlainOperator) (vs : List Variable) (a : Tree) → AreNew t cs
        → IsOver t.operators a → free_constants cs vs a ≡ a }
    ensures closed { (cs : List PlainOperator) (vs : List Variable) (a : Tree)
        → map (λ c. c.range) cs ≡ map (λ v. v.sort) vs → All (Contains vs) (occurrences a)
        → occurrences (instance_of (constants_for vs cs) a) ≡ [] }
    ensures over { (t : Theory) (cs : List PlainOperator) (vs : List Variable) (s : List ℕ) (a : Tree)
        → AreConstants cs → map (λ c. c.range) cs ≡ map (λ v. v.sort) vs → IsTermOf t.operators s a
        → IsTermOf (extend t cs []).operators s (instance_of (constants_for vs cs) a) }
    ensures back { (t : Theory) (cs : List PlainOperator) (vs : List Variable) (s : List ℕ) (a : Tree) → AreNew t cs
        → map (λ c. c.range) cs ≡ map (λ v. v.sort) vs → IsTermOf (extend t cs []).operators s a
        → IsTermOf t.operators s (free_constants cs vs a) }
    ensures generalised { (t : Theory) (cs : List PlainOperator) (vs : List Variable) (a b : Tree) → AreNew t cs
        → AreConstants cs → map (λ c. c.range) cs ≡ map (λ v. v.sort) vs → IsStatementOver t.operators (Equation a b)
        → Derivable (extend t cs [])
        (Equation (instance_of (constants_for vs cs) a) (instance_of (constants_for vs cs) b))
        → Derivable t (Equation a b) }
    ensures specialised { (t : Theory) (cs : List PlainOperator) (vs : List Variable) (a b : Tree)
        → IsWellSortedTheory t → AreConstants cs → map (λ c. c.range) cs ≡ map (λ v. v.sort) vs
        → Derivable t (Equation a b)
        → Derivable (extend t cs [])
        (Equation (instance_of (constants_for vs cs) a) (instance_of (constants_for vs cs) b)) }
{}

/// An induction may have the constants of its cases as a list, in the order of the generators.
pub fn induction()
    ensures { (t : Theory) (a b : Tree) (x s : List ℕ) (fs : List PlainOperator) (css : List (List PlainOperator))
        → length css ≡ length fs → Derivable t (Generated s fs) → IsStatementOver t.operators (Equation a b)
        → ((i : ℕ) (f : PlainOperator) (cs : List PlainOperator) → slice_get fs i ≡ Some f → slice_get css i ≡ Some cs
        → AreArguments t f cs)
        → ((i : ℕ) (f : PlainOperator) (cs : List PlainOperator) → slice_get fs i ≡ Some f → slice_get css i ≡ Some cs
        → Derivable (extend t cs (induction_hypotheses x s a b cs))
        (equation_at x s a b (app f (constant_terms cs))))
        → Derivable t (Equation a b) }
{}

/// What a well sorted theory states is derivable from it, and so is what every theory states of the truth values.
pub fn stating()
    ensures stated { (t : Theory) (s : Statement) → IsWellSortedTheory t → Contains t.statements s → Derivable t s }
    ensures truth_values { (t : Theory) → Derivable t statement_zero }
{}

/// Arguments of a well sorted term have the sorts of its operator's domain.
pub fn arguments()
    ensures one { (fs : List PlainOperator) (f : PlainOperator) (r : List ℕ) (a : Tree) → f.domain ≡ r ∷ []
        → IsTermOver fs (apply_one f a) → IsTermOf fs r a }
    ensures two { (fs : List PlainOperator) (f : PlainOperator) (r s : List ℕ) (a b : Tree) → f.domain ≡ r ∷ s ∷ []
        → IsTermOver fs (apply_two f a b) → IsTermOf fs r a × IsTermOf fs s b }
{}
