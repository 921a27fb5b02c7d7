//! Critical pairs worked out, as the definitions compute them. No function here does anything.
ghost use Rattle.std.specs.Prelude.{◌≡◌, true, false, codes, [], ◌∷◌, Ok};
ghost use Rattle.larch_pairs_critical.specs.Examples.{associative, f, for_f_of_g, for_g_of_f, g, named_in, product};
ghost use Rattle.larch_pairs_critical.specs.Examples.{to_constant, twice_f_is_g, v};
ghost use Rattle.larch_pairs_critical.specs.Pairs.{critical_pairs};

/// f(f(x)) -> g(x) overlaps with itself below the root: f(f(f(x))) becomes f(g(x)) and g(f(x)).
pub fn a_rule_overlaps_with_itself()
    ensures { critical_pairs twice_f_is_g twice_f_is_g true ≡ Ok (record {
      left = f (g (v 1));
      right = g (f (v 1));
      place = 1 ∷ [];
      first = named_in (codes "x") (f (v 1)) ∷ [];
      second = named_in (codes "x") (v 1) ∷ [];
    } ∷ []) }
{}

/// The rule of associativity with itself: ((x * y) * z) * w becomes (x * (y * z)) * w and (x * y) * (z * w).
pub fn associativity_overlaps_with_itself()
    ensures { critical_pairs associative associative true ≡ Ok (record {
      left = product (product (v 1) (product (v 2) (v 3))) (v 4);
      right = product (product (v 1) (v 2)) (product (v 3) (v 4));
      place = 1 ∷ [];
      first = named_in (codes "x") (product (v 1) (v 2)) ∷ named_in (codes "y") (v 3) ∷ named_in (codes "z") (v 4) ∷ [];
      second = named_in (codes "x") (v 1) ∷ named_in (codes "y") (v 2) ∷ named_in (codes "z") (v 3) ∷ [];
    } ∷ []) }
{}

/// Two rules may have variables of one name: f(g(x)) -> x and g(f(x)) -> x overlap, although x and f(x) don't unify.
pub fn variables_are_set_apart()
    ensures { critical_pairs for_f_of_g for_g_of_f false ≡ Ok (record {
      left = f (v 1);
      right = f (v 1);
      place = 1 ∷ [];
      first = named_in (codes "x") (f (v 1)) ∷ [];
      second = named_in (codes "x") (v 1) ∷ [];
    } ∷ []) }
{}

/// The root is left out where both are one rule, and variables are never overlapped: f(x) -> c has no pair with itself.
pub fn roots_and_variables_are_left_out()
    ensures { critical_pairs to_constant to_constant true ≡ Ok [] }
{}
