//! What holds of all replays, for crates above to cite. No function here does anything.
ghost use Rattle.std.specs.Prelude.{◌≡◌, ◌≢◌, ◌<◌, ◌≤◌, ◌+◌, ◌++◌, ◌∷◌, []};
ghost use Rattle.std.specs.Prelude.{ℕ, false, List, Option, length, sum_by, bytes_eq};
ghost use Rattle.std.specs.Prelude.{◌↔◌, IsTrue, All, Contains, Ok, map};
ghost use Rattle.std.specs.Cmp.Lexicographic.{pointwise};
ghost use Rattle.std.specs.List.{list_any, AllPairs};
ghost use Rattle.larch_script_commands.specs.Bare.{bare_kind};
ghost use Rattle.larch_script_commands.specs.Same.{same_kind};
ghost use Rattle.larch_script_commands.specs.declared.command.CommandKind.{CommandKind};
ghost use Rattle.larch_term.specs.Operator.{PlainOperator, name_bytes};
ghost use Rattle.larch_term.specs.Statement.{IsStatementOver};
ghost use Rattle.larch_term.specs.Tree.{Tree};
ghost use Rattle.larch_term.specs.declared.statement.Theory.{Theory};
ghost use Rattle.larch_rewrite_meaning.specs.CalculusTheories.{AreConstants, AreNew};
ghost use Rattle.larch_base_meaning.specs.Steps.{after};
ghost use Rattle.larch_pairs_critical.specs.Overlap.{IsApplication};
ghost use Rattle.larch_rewrite_meaning.specs.Sides.{AreSidesOver, Sides};
ghost use Rattle.larch_rewrite_meaning.specs.Work.{Made, then_work};
ghost use Rattle.larch_order.specs.declared.precedence.Ranked.{Ranked};
ghost use Rattle.larch_prove_meaning.specs.Facts.{Facts, Manner, Replace, add, add_waiting, by_treatment, most_taken};
ghost use Rattle.larch_prove_meaning.specs.Facts.{normal_sides, serving, treatment};
ghost use Rattle.larch_prove_meaning.specs.Taking.{enough};
ghost use Rattle.larch_prove_meaning.specs.Levels.{EarlierDuty, Proof, all_constants};
ghost use Rattle.larch_prove_meaning.specs.NewNames.{free_name};
ghost use Rattle.larch_prove_meaning.specs.Plans.{IsFormulaOver, IsMethodOver, IsPlanOver, Method, Plan, Setting, plan};
ghost use Rattle.larch_prove_meaning.specs.Redo.{Replayed, begin_alike, is_of_one, redo, same_duty, same_lemma};
ghost use Rattle.larch_prove_meaning.specs.Redo.{same_theory};
ghost use Rattle.larch_prove_meaning.specs.Replays.{Duty, all_prepared, all_stepped, begun_with, step};
ghost use Rattle.larch_prove_meaning.specs.WellSorted.{GoesOn, IsWellSortedDuty, IsWellSortedProof};

/// A block may be replayed in two parts: kept states stand on this.
pub fn blocks_go_in_parts()
    ensures { (cs ds : List CommandKind) (p : Proof)
        → all_stepped (cs ++ ds) p ≡ after (all_stepped cs p) (λ q. all_stepped ds q) }
{}

/// A new name is none of those that are taken.
pub fn new_names_are_new()
    ensures { (taken : List (List ℕ)) (word : List ℕ) → 0 < length word
        → list_any (bytes_eq (free_name taken word)) taken ≡ false }
{}

/// Equal commands do the same, wherever they and their parts stand; and replays that begin alike come to the same
/// behind their openings. So a state that was kept may be taken up by commands that are equal to those that led to it.
pub fn equal_commands_do_the_same()
    ensures step { (c d : CommandKind) (p : Proof) → IsTrue (same_kind c d) → step c p ≡ step d p }
    ensures preamble { (k : ℕ) (cs ds : List CommandKind) (p : Proof) → IsTrue (pointwise same_kind cs ds)
        → all_prepared k cs p ≡ all_prepared k ds p }
    ensures block { (cs ds : List CommandKind) (p : Proof) → IsTrue (pointwise same_kind cs ds)
        → all_stepped cs p ≡ all_stepped ds p }
    ensures opening { (r q : Replayed) (limit : ℕ) → IsTrue (begin_alike r q)
        → begun_with r.duty limit r.preamble ≡ begun_with q.duty limit q.preamble }
{}

/// What the tests of redoing call the same is equal: theories, lemmas, what a replay starts from; and where two replays
/// begin alike, they start from the same behind preambles that are equal without positions.
pub fn what_is_the_same_is_equal()
    ensures theories { (t u : Theory) → IsTrue (same_theory t u) ↔ (t ≡ u) }
    ensures lemmas { (l m : EarlierDuty) → IsTrue (same_lemma l m) ↔ (l ≡ m) }
    ensures duties { (d e : Duty) → IsTrue (same_duty d e) ↔ (d ≡ e) }
    ensures beginnings { (r q : Replayed) → IsTrue (begin_alike r q)
        ↔ ((r.duty ≡ q.duty) × (map bare_kind r.preamble ≡ map bare_kind q.preamble)) }
{}

/// Where nothing has changed, nothing is replayed again, if no record is of the duty of an earlier one.
pub fn nothing_is_redone()
    ensures { (now : List Replayed) → AllPairs (λ earlier r. is_of_one r earlier ≡ false) now
        → redo now now ≡ 0 }
{}

/// No more is replayed again than each duty's opening and its commands.
pub fn redoing_is_bounded()
    ensures { (before now : List Replayed) → redo before now ≤ sum_by (λ r. 1 + length r.block) now }
{}

/// Where facts and an equation are well sorted over operators, so are the facts behind its adding. Where no fact
/// rewrites a variable, none does behind it.
pub fn adding_keeps_sorts()
    ensures sorts { (fs : List PlainOperator) (manner : Manner) (e : Sides) (facts : Facts) (b : ℕ) (made : Facts)
        (r : ℕ) → All (λ fact. AreSidesOver fs fact.sides) facts.rules → AreSidesOver fs e
        → add manner e facts b ≡ Made made r → All (λ fact. AreSidesOver fs fact.sides) made.rules }
    ensures applications { (manner : Manner) (e : Sides) (facts : Facts) (b : ℕ) (made : Facts) (r : ℕ)
        → All (λ fact. IsApplication fact.sides.left) facts.rules → add manner e facts b ≡ Made made r
        → All (λ fact. IsApplication fact.sides.left) made.rules }
{}

/// The number that an adding counts down never comes to 0, so a body needn't count it. Where it is enough for what
/// waits, adding goes on with the same number; so it does at the start. Each equation that is taken leaves what needs
/// less.
pub fn adding_comes_to_an_end()
    ensures start { (n : ℕ) (manner : Manner) (e : Sides) (facts : Facts) (b : ℕ) → most_taken b ≤ n
        → add_waiting n manner 0 (e ∷ []) facts b ≡ then_work (normal_sides (serving manner facts) e b)
        (λ found c. by_treatment (λ k es fs r. add_waiting n manner k es fs r) manner 0 [] facts found c) }
    ensures onward { (n : ℕ) (manner : Manner) (made : ℕ) (e : Sides) (waiting : List Sides) (facts : Facts) (b : ℕ)
        → enough (e ∷ waiting) b ≤ n
        → add_waiting n manner made (e ∷ waiting) facts b ≡ then_work (normal_sides (serving manner facts) e b)
        (λ found c. by_treatment (λ k es fs r. add_waiting n manner k es fs r) manner made waiting facts found c) }
    ensures first { (rules : List Sides) (ranks : List Ranked) (e d : Sides) (b c : ℕ) (others : List Sides)
        → normal_sides rules e b ≡ Made d c → treatment ranks d ≡ Replace others → enough others c ≤ most_taken b }
    ensures without { (rules : List Sides) (e d : Sides) (b c : ℕ) (waiting : List Sides)
        → normal_sides rules e b ≡ Made d c → enough waiting c < enough (e ∷ waiting) b }
    ensures instead { (rules : List Sides) (ranks : List Ranked) (e d : Sides) (b c : ℕ) (others waiting : List Sides)
        → normal_sides rules e b ≡ Made d c → treatment ranks d ≡ Replace others
        → enough (others ++ waiting) c < enough (e ∷ waiting) b }
{}

/// Where the clauses, a goal and what a method is carried out with are well sorted over operators, each subgoal of its
/// plan is so over these, the plan's constants and its own.
pub fn plans_keep_sorts()
    ensures { (fs : List PlainOperator) (setting : Setting) (goal : Tree) (method : Method) (made : Plan)
        → All (IsStatementOver fs) setting.clauses → IsFormulaOver fs goal → IsMethodOver fs method
        → plan setting goal method ≡ Ok made → IsPlanOver fs made }
{}

/// What a plan makes are constants. Their names are none of those that are taken, and differ.
pub fn plans_make_new_constants()
    ensures constants { (setting : Setting) (goal : Tree) (method : Method) (made : Plan)
        → plan setting goal method ≡ Ok made → AreConstants (all_constants made) }
    ensures free { (setting : Setting) (goal : Tree) (method : Method) (made : Plan)
        → plan setting goal method ≡ Ok made
        → All (λ c. (n : List ℕ) → Contains setting.taken n → name_bytes c.name ≢ n) (all_constants made) }
    ensures different { (setting : Setting) (goal : Tree) (method : Method) (made : Plan)
        → plan setting goal method ≡ Ok made → AllPairs (λ c d. c.name ≢ d.name) (all_constants made) }
{}

/// The constants of a block have new names, from the opening on and behind each command that isn't refused: no operator
/// of the theory and no built-in one has the name of one of them, and their names differ.
pub fn constants_are_new()
    ensures opened { (duty : Duty) (limit : ℕ) (preamble : List CommandKind) (p : Proof) → IsWellSortedDuty duty
        → begun_with duty limit preamble ≡ Ok p → AreNew p.theory p.constants }
    ensures stepped { (c : CommandKind) (p q : Proof) → IsWellSortedProof p → AreNew p.theory p.constants
        → step c p ≡ Ok q → AreNew q.theory q.constants }
    ensures replayed { (block : List CommandKind) (p q : Proof) → IsWellSortedProof p → AreNew p.theory p.constants
        → all_stepped block p ≡ Ok q → AreNew q.theory q.constants }
{}

/// All levels of a proof stay well sorted, from the opening on and behind each command that isn't refused: goals, facts
/// and the subgoals that are still to be opened are so over the theory's operators and the constants of the block. No
/// name is in scope twice. The theory and the lemmas stay, and so do the constants.
pub fn proofs_stay_well_sorted()
    ensures opened { (duty : Duty) (limit : ℕ) (preamble : List CommandKind) (p : Proof) → IsWellSortedDuty duty
        → begun_with duty limit preamble ≡ Ok p → IsWellSortedProof p }
    ensures stepped { (c : CommandKind) (p q : Proof) → IsWellSortedProof p → step c p ≡ Ok q
        → IsWellSortedProof q × GoesOn p q }
    ensures replayed { (block : List CommandKind) (p q : Proof) → IsWellSortedProof p → all_stepped block p ≡ Ok q
        → IsWellSortedProof q × GoesOn p q }
{}
