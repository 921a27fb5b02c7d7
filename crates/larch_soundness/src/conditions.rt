//! Why the rules have their side conditions: for each one, premises that are all derived, and a model in which what
//! would follow without the condition fails. No function here does anything.
ghost use Rattle.std.specs.Prelude.{◌≡◌, ◌≢◌, ℕ, List, [], ◌∷◌, codes, false, All, Some};
ghost use Rattle.std.specs.List.{slice_get};
ghost use Rattle.larch_term.specs.Tree.{Tree};
ghost use Rattle.larch_term.specs.declared.statement.Statement.TheVariants.{Equation, Generated, Partitioned};
ghost use Rattle.larch_calculus.specs.Derivable.{Derivable};
ghost use Rattle.larch_calculus.specs.Example.{numbers, nought, x_number};
ghost use Rattle.larch_calculus.specs.Formula.{constant, apply_one};
ghost use Rattle.larch_calculus.specs.Freed.{free_constants};
ghost use Rattle.larch_calculus.specs.Observation.{Observation, observations_of, other_variables, AreDifferent};
ghost use Rattle.larch_calculus.specs.Theories.{IsNewName};
ghost use Rattle.larch_models_meaning.specs.Computed.{holds};
ghost use Rattle.larch_soundness.specs.Conditions.{Refutes, WeakenPremises, FreshPremises, CasesPremises};
ghost use Rattle.larch_soundness.specs.Conditions.{InductPremises, ObservePremises, OccursNot, GeneratedPremises};
ghost use Rattle.larch_soundness.specs.Conditions.{PartitionedPremises};
ghost use Rattle.larch_soundness.specs.Counterexamples.{sort_n, constant_a, constant_b, variable_x, term_x, term_y};
ghost use Rattle.larch_soundness.specs.Counterexamples.{term_z, all_nought, equal_constants, x_is_nought, named_z};
ghost use Rattle.larch_soundness.specs.Counterexamples.{operator_f, operator_g, observer_of_pairs, observed_with_own};
ghost use Rattle.larch_soundness.specs.Counterexamples.{own_values, observer_of_triples, observed_with_one};
ghost use Rattle.larch_soundness.specs.Counterexamples.{one_values, operator_p, operator_q, equal_pairs, pair_values};
ghost use Rattle.larch_soundness.specs.Counterexamples.{box_constant, one_twice, predicate, holding_everywhere};
ghost use Rattle.larch_soundness.specs.Counterexamples.{true_values, alike, ill_sorted, sorted_again};
ghost use Rattle.larch_models_meaning.specs.Examples.{modulo_two};
ghost use Rattle.larch_models_meaning.specs.Models.{IsModel};

/// `fresh` of constants that aren't new: `a == b` is stated of two constants, and with `x` for `a` would follow
/// `x == b`.
pub fn fresh_needs_newness()
    ensures premises { FreshPremises equal_constants (constant_a ∷ []) (variable_x ∷ []) (constant constant_a)
        (constant constant_b) }
    ensures refuted { Refutes all_nought equal_constants
        (Equation (free_constants (constant_a ∷ []) (variable_x ∷ []) (constant constant_a))
        (free_constants (constant_a ∷ []) (variable_x ∷ []) (constant constant_b))) }
{}

/// `cases` of a formula with a variable: `x = 0` true gives `x == 0`, and `x = 0` false is false of `0`, so gives all.
pub fn cases_need_closedness()
    ensures premises { CasesPremises numbers x_is_nought x_number (constant nought) }
    ensures refuted { Refutes modulo_two numbers (Equation x_number (constant nought)) }
{}

/// `observe` with a variable that occurs in the terms: `o(f(z), z) == o(g(z), z)`, and `f(z) == g(z)` would follow.
pub fn observe_needs_apartness()
    ensures premises { ObservePremises observed_with_own sort_n (observer_of_pairs ∷ []) named_z
        (apply_one operator_f term_z) (apply_one operator_g term_z) }
    ensures different { (i : ℕ) (w : Observation)
        → slice_get (observations_of sort_n (observer_of_pairs ∷ [])) i ≡ Some w
        → AreDifferent (other_variables (named_z i) w) }
    ensures refuted { Refutes own_values observed_with_own
        (Equation (apply_one operator_f term_z) (apply_one operator_g term_z)) }
{}

/// `observe` with one variable at two places: `o(a, z, z) == o(b, z, z)`, and `a == b` would follow.
pub fn observe_needs_different_variables()
    ensures premises { ObservePremises observed_with_one sort_n (observer_of_triples ∷ []) named_z (constant constant_a)
        (constant constant_b) }
    ensures left { (i : ℕ) (w : Observation) → slice_get (observations_of sort_n (observer_of_triples ∷ [])) i ≡ Some w
        → OccursNot (other_variables (named_z i) w) (constant constant_a) }
    ensures right { (i : ℕ) (w : Observation) → slice_get (observations_of sort_n (observer_of_triples ∷ [])) i ≡ Some w
        → OccursNot (other_variables (named_z i) w) (constant constant_b) }
    ensures refuted { Refutes one_values observed_with_one (Equation (constant constant_a) (constant constant_b)) }
{}

/// `induct` with one constant for two arguments: `q` is `a` of `a`, of `b` and of `p(c, c)`, and `q(x) == a` would
/// follow.
pub fn induct_needs_different_constants()
    ensures premises { InductPremises equal_pairs (codes "x") sort_n (constant_a ∷ constant_b ∷ operator_p ∷ [])
        one_twice (apply_one operator_q term_x) (constant constant_a) }
    ensures refuted { Refutes pair_values equal_pairs (Equation (apply_one operator_q term_x) (constant constant_a)) }
{}

/// `generated` of a predicate of which more is said: `p(x) == true` is stated, and `N generated by a` would follow.
pub fn generated_needs_newness()
    ensures premises { GeneratedPremises holding_everywhere sort_n (constant_a ∷ []) predicate (codes "x") }
    ensures refuted { Refutes true_values holding_everywhere (Generated sort_n (constant_a ∷ [])) }
{}

/// `partitioned` of constants that aren't new: `a == b` is stated, and `N partitioned by p` would follow.
pub fn partitioned_needs_newness()
    ensures premises { PartitionedPremises alike sort_n (predicate ∷ []) constant_a constant_b }
    ensures different { constant_a.name ≢ constant_b.name }
    ensures refuted { Refutes all_nought alike (Partitioned sort_n (predicate ∷ [])) }
{}

/// `partitioned` of one new constant twice: `c == c`, and `N partitioned by p` would follow.
pub fn partitioned_needs_different_constants()
    ensures premises { PartitionedPremises alike sort_n (predicate ∷ []) (box_constant 0) (box_constant 0) }
    ensures new { All (λ c. IsNewName alike c.name) (box_constant 0 ∷ box_constant 0 ∷ []) }
    ensures refuted { Refutes all_nought alike (Partitioned sort_n (predicate ∷ [])) }
{}

/// `weaken` from a theory that isn't well sorted: it has no operators, so that `fresh` makes `x == y` of the equation
/// of two constants that it states; and in the theory with these constants it would follow.
pub fn weaken_needs_sorts()
    ensures premises { WeakenPremises ill_sorted sorted_again (Equation term_x term_y) }
    ensures refuted { Refutes all_nought sorted_again (Equation term_x term_y) }
{}

/// Soundness of a theory that isn't well sorted: what it derives fails in a model of it.
pub fn soundness_needs_sorts()
    ensures derivable { Derivable ill_sorted (Equation term_x term_y) }
    ensures model { IsModel all_nought ill_sorted }
    ensures fails { holds all_nought (Equation term_x term_y) ≡ false }
{}
