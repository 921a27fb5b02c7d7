//! What holds of the boxes of methods, for crates above to cite. No function here does anything.
ghost use Rattle.std.specs.Prelude.{◌≡◌, ℕ, List, [], ◌∷◌, map, bytes_eq, find, None, Some, Ok};
ghost use Rattle.std.specs.List.{AllZip};
ghost use Rattle.larch_calculus.specs.Formula.{implication};
ghost use Rattle.larch_calculus.specs.Observation.{observations_of};
ghost use Rattle.larch_derive.specs.Builder.{boxes_in, theory_in};
ghost use Rattle.larch_derive.specs.OpenBox.{constant_of};
ghost use Rattle.larch_derive.specs.Predicates.{AreOthers, Grows, HasEquation, Known, HasNoBadLine};
ghost use Rattle.larch_derive.specs.Words.{AreWordedOperators, IsWordedStatement, IsWordedTerm};
ghost use Rattle.larch_derive.specs.declared.builder.Builder.{Builder};
ghost use Rattle.larch_derive.specs.declared.open_box.OpenBox.{OpenBox};
ghost use Rattle.larch_derive_clauses.specs.DeriveBoxesBoxes.{AreOwnConstants, HasResult, Opens};
ghost use Rattle.larch_methods.specs.Clauses.{ByConstants, ByPredicate, IsSupposing};
ghost use Rattle.larch_methods.specs.Conjuncts.{AreTrue};
ghost use Rattle.larch_methods.specs.Inside.{IsInside, closed_in};
ghost use Rattle.larch_methods.specs.Methods.{ByCases, ByContradiction, ByImplication, ByInduction};
ghost use Rattle.larch_methods.specs.Methods.{IsKnownFormula, IsStated};
ghost use Rattle.larch_methods.specs.Observers.{ByObservers};
ghost use Rattle.larch_methods.specs.Opening.{HasOtherConstants, HasOwnConstants, IsShownIn, MayBeginAll, MayOpen};
ghost use Rattle.larch_prove_plans.specs.RewriteMeaningSides.{Sides};
ghost use Rattle.larch_prove_plans.specs.ClauseGoals.{generation_goal, partition_goal, predicate_named};
ghost use Rattle.larch_prove_plans.specs.ProveMeaningNewNames.{constant_named};
ghost use Rattle.larch_prove_plans.specs.ProveMeaningPlans.{Cases, Conjunction, Contradiction};
ghost use Rattle.larch_prove_plans.specs.ProveMeaningPlans.{Implication, Induction, Partition};
ghost use Rattle.larch_prove_plans.specs.ProveMeaningPlans.{Plan, Setting, closed_by, conjuncts};
ghost use Rattle.larch_prove_plans.specs.ProveMeaningPlans.{generators, holds, observers, plan};
ghost use Rattle.larch_prove_plans.specs.ProveMeaningPlans.{Subgoal, shown, two_arguments};
ghost use Rattle.larch_term.specs.BuiltIn.{is_built_in_as};
ghost use Rattle.larch_term.specs.Operator.{PlainOperator};
ghost use Rattle.larch_term.specs.Sorts.{sort_of};
ghost use Rattle.larch_term.specs.Statement.{IsStatementOver};
ghost use Rattle.larch_term.specs.Tree.{Tree};
ghost use Rattle.larch_term.specs.Truth.{truth};
ghost use Rattle.larch_term.specs.Variable.{variables_of};
ghost use Rattle.larch_term.specs.declared.built_in.BuiltIn.TheVariants.{Equal};
ghost use Rattle.larch_term.specs.declared.statement.Statement.TheVariants.{Equation, Generated, Partitioned};
ghost use Rattle.larch_term.specs.declared.variable.Variable.{Variable};

/// A box of constants alone, whose sorts are words, may be opened. The one that is opened for the shared constants of a
/// plan is the one in which the method's end finds its subgoals, where the term with the variables is in words. What is
/// known is known there with its constants in the places of variables.
pub fn shared_boxes()
    ensures opens { (b : Builder) (cs : List PlainOperator) → HasNoBadLine b → AreOthers (theory_in b) cs
        → AreWordedOperators cs → MayOpen b cs [] }
    ensures cases { (a b : Builder) (x : OpenBox) (setting : Setting) (goal f : Tree) (made : Plan)
        → plan setting goal (Cases f) ≡ Ok made → Opens a b x [] → x.constants ≡ made.constants
        → AreOwnConstants (boxes_in a) x → IsWordedTerm f → IsInside a b x (variables_of f) }
    ensures implication { (a b : Builder) (x : OpenBox) (setting : Setting) (goal p q : Tree) (made : Plan)
        → goal ≡ implication p q → plan setting goal Implication ≡ Ok made → Opens a b x []
        → x.constants ≡ made.constants → AreOwnConstants (boxes_in a) x → IsWordedTerm p
        → IsInside a b x (variables_of p) }
    ensures contradiction { (a b : Builder) (x : OpenBox) (setting : Setting) (goal : Tree) (made : Plan)
        → plan setting goal Contradiction ≡ Ok made → Opens a b x [] → x.constants ≡ made.constants
        → AreOwnConstants (boxes_in a) x → IsWordedTerm goal → IsInside a b x (variables_of goal) }
    ensures closed { (a b : Builder) (x : OpenBox) (vs : List Variable) (g : Tree) → IsInside a b x vs
        → IsKnownFormula a g → IsKnownFormula b (closed_in vs x g) }
{}

/// The box of each subgoal of a plan may be opened: for three methods where the box of the shared constants is open,
/// for induction and partition where the plan was made.
pub fn subgoals_begin()
    ensures cases { (a b : Builder) (x : OpenBox) (setting : Setting) (goal f : Tree) (made : Plan)
        → plan setting goal (Cases f) ≡ Ok made → x.constants ≡ made.constants → IsInside a b x (variables_of f)
        → IsKnownFormula a f → MayBeginAll b made }
    ensures implication { (a b : Builder) (x : OpenBox) (setting : Setting) (goal p q : Tree) (made : Plan)
        → goal ≡ implication p q → plan setting goal Implication ≡ Ok made → x.constants ≡ made.constants
        → IsInside a b x (variables_of p) → IsKnownFormula a goal → MayBeginAll b made }
    ensures contradiction { (a b : Builder) (x : OpenBox) (setting : Setting) (goal : Tree) (made : Plan)
        → plan setting goal Contradiction ≡ Ok made → x.constants ≡ made.constants
        → IsInside a b x (variables_of goal) → IsKnownFormula a goal → MayBeginAll b made }
    ensures induction { (b : Builder) (setting : Setting) (goal : Tree) (n : List ℕ) (v : Variable)
        (fs : List PlainOperator) (made : Plan) → plan setting goal (Induction n) ≡ Ok made
        → find (λ v. bytes_eq v.name n) (variables_of goal) ≡ Some v → generators v.sort setting.clauses ≡ Some fs
        → IsKnownFormula b goal → HasOtherConstants b made → AreWordedOperators fs → MayBeginAll b made }
    ensures partition { (b : Builder) (setting : Setting) (goal l r : Tree) (os : List PlainOperator) (made : Plan)
        → plan setting goal Partition ≡ Ok made → two_arguments (λ f. is_built_in_as f Equal) goal ≡ Some (l, r)
        → observers (sort_of l) setting.clauses ≡ Some os → HasNoBadLine b → HasOtherConstants b made
        → AreWordedOperators os → MayBeginAll b made }
{}

/// Where the builder has grown, the box of shared constants is still the one that the end asks for, and what a closed
/// box shows of a subgoal it shows still.
pub fn growing_keeps_boxes()
    ensures inside { (a b c : Builder) (x : OpenBox) (vs : List Variable) → IsInside a b x vs → Grows b c
        → IsInside a c x vs }
    ensures shown { (a b : Builder) (s : Subgoal) (said : Sides) (x : OpenBox) → Grows a b → IsShownIn a s said x
        → IsShownIn b s said x }
{}

/// The closed boxes of a plan's subgoals, in order, each with what must be said of its subgoal as its result, are what
/// the method's end takes; of a conjunction it takes the lines of the subgoals. What must be said is that the subgoal
/// is true; of an implication and of a contradiction, that the goal is, with the shared constants in the places of
/// variables; of an observation, its equation.
pub fn subgoals_show()
    ensures cases { (a b : Builder) (x first second : OpenBox) (setting : Setting) (goal f : Tree) (made : Plan)
        → plan setting goal (Cases f) ≡ Ok made → x.constants ≡ made.constants → IsInside a b x (variables_of f)
        → AllZip (λ s y. IsShownIn b s (holds s.goal) y) made.subgoals (first ∷ second ∷ []) → IsKnownFormula a goal
        → ByCases a b f goal x.number first.number second.number }
    ensures implication { (a b : Builder) (x y : OpenBox) (setting : Setting) (goal p q : Tree) (made : Plan)
        → goal ≡ implication p q → plan setting goal Implication ≡ Ok made → x.constants ≡ made.constants
        → IsInside a b x (variables_of p)
        → AllZip (λ s z. IsShownIn b s (holds (closed_by p x.constants goal)) z) made.subgoals (y ∷ [])
        → IsKnownFormula a goal → ByImplication a b p q (closed_by p x.constants goal) x.number y.number }
    ensures contradiction { (a b : Builder) (x y : OpenBox) (setting : Setting) (goal : Tree) (made : Plan)
        → plan setting goal Contradiction ≡ Ok made → x.constants ≡ made.constants
        → IsInside a b x (variables_of goal)
        → AllZip (λ s z. IsShownIn b s (holds (closed_by goal x.constants goal)) z) made.subgoals (y ∷ [])
        → IsKnownFormula a goal → ByContradiction a b goal (closed_by goal x.constants goal) x.number y.number }
    ensures conjunction { (b : Builder) (setting : Setting) (goal : Tree) (made : Plan) (lines : List ℕ)
        → plan setting goal Conjunction ≡ Ok made
        → AllZip (λ s n. HasEquation b n s.goal truth) made.subgoals lines → AreTrue b (conjuncts goal) lines }
    ensures induction { (b : Builder) (setting : Setting) (goal : Tree) (n : List ℕ) (v : Variable)
        (fs : List PlainOperator) (clause : ℕ) (made : Plan) (boxes : List OpenBox)
        → plan setting goal (Induction n) ≡ Ok made → find (λ v. bytes_eq v.name n) (variables_of goal) ≡ Some v
        → generators v.sort setting.clauses ≡ Some fs → IsStated b clause (Generated v.sort fs)
        → HasOwnConstants b made → AllZip (λ s y. IsShownIn b s (holds s.goal) y) made.subgoals boxes
        → IsKnownFormula b goal → ByInduction b clause v goal (map (λ y. y.number) boxes) }
    ensures partition { (b : Builder) (setting : Setting) (goal l r : Tree) (os : List PlainOperator) (clause : ℕ)
        (made : Plan) (boxes : List OpenBox) → plan setting goal Partition ≡ Ok made
        → two_arguments (λ f. is_built_in_as f Equal) goal ≡ Some (l, r)
        → observers (sort_of l) setting.clauses ≡ Some os → IsStated b clause (Partitioned (sort_of l) os)
        → HasOwnConstants b made → AllZip (λ s y. y.constants ≡ s.constants) made.subgoals boxes
        → AllZip (λ w y. HasResult b y [] (Equation (shown w y.constants l) (shown w y.constants r)))
        (observations_of (sort_of l) os) boxes → Known b l → Known b r → sort_of l ≡ sort_of r
        → ByObservers b clause l r boxes }
{}

/// The box in which a clause is shown may be opened, and a line there that says that its goal is true is what its end
/// takes.
pub fn clauses_begin_and_show()
    ensures generation_begins { (b : Builder) (n s : List ℕ) (fs : List PlainOperator) → HasNoBadLine b
        → AreOthers (theory_in b) (predicate_named n s ∷ [])
        → IsStatementOver (theory_in b).operators (Generated s fs) → IsWordedStatement (Generated s fs)
        → MayOpen b (generation_goal n s fs).constants (generation_goal n s fs).hypotheses }
    ensures generation_shows { (a b : Builder) (x : OpenBox) (n s : List ℕ) (fs : List PlainOperator) (line : ℕ)
        → x.constants ≡ (generation_goal n s fs).constants → IsSupposing a b x (generation_goal n s fs).hypotheses
        → constant_of (boxes_in a) (predicate_named n s) ≡ None
        → IsStatementOver (theory_in a).operators (Generated s fs)
        → HasEquation b line (generation_goal n s fs).goal truth → ByPredicate a b s fs x.number line }
    ensures partition_begins { (b : Builder) (n m s : List ℕ) (os : List PlainOperator) → HasNoBadLine b
        → AreOthers (theory_in b) (constant_named n s ∷ constant_named m s ∷ [])
        → IsStatementOver (theory_in b).operators (Partitioned s os) → IsWordedStatement (Partitioned s os)
        → MayOpen b (partition_goal n m s os).constants (partition_goal n m s os).hypotheses }
    ensures partition_shows { (a b : Builder) (x : OpenBox) (n m s : List ℕ) (os : List PlainOperator) (line : ℕ)
        → x.constants ≡ (partition_goal n m s os).constants → IsSupposing a b x (partition_goal n m s os).hypotheses
        → AreOwnConstants (boxes_in a) x → IsStatementOver (theory_in a).operators (Partitioned s os)
        → HasEquation b line (partition_goal n m s os).goal truth → ByConstants a b s os x.number line }
{}
