//! Duties worked out, as the definitions compute them. No function here does anything.
ghost use Rattle.std.specs.Prelude.{◌≡◌, codes, [], ◌∷◌, Ok, Err};
ghost use Rattle.larch_base.specs.declared.code.Code.TheVariants.{BadReference, Converted, Exempt, ImpliedOperator};
ghost use Rattle.larch_base.specs.declared.code.Code.TheVariants.{Rename, Size, UnknownTrait};
ghost use Rattle.larch_base.specs.declared.label.Label.TheVariants.{Assume, Convert, Imply};
ghost use Rattle.larch_raw.specs.declared.reference.RawActual.TheVariants.{Plain};
ghost use Rattle.larch_flat_meaning.specs.ShorthandOperators.{operator};
ghost use Rattle.larch_flat_meaning.specs.Examples.{base_statement, base_theory, call, a_trait, bare, declares};
ghost use Rattle.larch_flat_meaning.specs.Examples.{for_old, including_one};
ghost use Rattle.larch_duties_meaning.specs.Duties.{not_too_many};
ghost use Rattle.larch_duties_meaning.specs.Examples.{alone_at, among_traits, claiming};
ghost use Rattle.larch_duties_meaning.specs.Examples.{converting, converts, implies_trait};
ghost use Rattle.larch_duties_meaning.specs.Examples.{named_at, on_weak, raw_fixed, same_at_constant, same_constant};
ghost use Rattle.larch_duties_meaning.specs.Examples.{same_function, with_both_copies, with_conversions};
ghost use Rattle.larch_duties_meaning.specs.Examples.{with_copy, wrong};
ghost use Rattle.larch_duties_meaning.specs.Examples.{base_item, base_operators, declares_minus, fixed_by, fixed_item};
ghost use Rattle.larch_duties_meaning.specs.Examples.{function, function_theory, function_with};
ghost use Rattle.larch_duties_meaning.specs.Examples.{generated_by, generates};
ghost use Rattle.larch_duties_meaning.specs.Examples.{implies_bad, implies_by, itself_item, like_base, named_minus};
ghost use Rattle.larch_duties_meaning.specs.Examples.{plain_item, plain_statement, same_functions, same_itself};
ghost use Rattle.larch_duties_meaning.specs.Examples.{so_many_duties, with_clauses_of, with_items, with_second_copy};

/// A converted operator has a copy of which the statements with it hold too, and is to be that copy.
pub fn a_converted_operator_is_its_copy()
    ensures { converting (named_at (codes "f") 6 12 ∷ []) []
        ≡ Ok (record { label = Convert 1; theory = with_copy []; statement = same_function } ∷ []) }
{}

/// Operators of one clause are replaced together, each with a duty of its own.
pub fn operators_are_converted_together()
    ensures { converting (named_at (codes "f") 6 12 ∷ named_at (codes "a") 6 15 ∷ []) []
        ≡ Ok (record { label = Convert 1; theory = with_both_copies; statement = same_function }
        ∷ record { label = Convert 2; theory = with_both_copies; statement = same_constant } ∷ []) }
{}

/// Numbers go on from clause to clause, and each clause has its own copies.
pub fn clauses_number_on()
    ensures { with_conversions (converts (named_at (codes "f") 6 12 ∷ []) [] ∷ converts
        (named_at (codes "f") 7 12 ∷ []) [] ∷ [])
        ≡ Ok (record { label = Convert 1; theory = with_copy []; statement = same_function }
        ∷ record { label = Convert 2; theory = with_copy []; statement = same_function } ∷ []) }
{}

/// What is exempted is the same by the copies.
pub fn an_exempted_term_is_the_same_by_the_copies()
    ensures { converting (named_at (codes "f") 6 12 ∷ []) (alone_at raw_fixed 6 24 ∷ [])
        ≡ Ok (record {
          label = Convert 1;
          theory = with_copy
              (same_at_constant ∷ []);
          statement = same_function;
        } ∷ []) }
{}

/// An operator is converted once, it must be there, and it must stand in each exempted term.
pub fn what_is_wrong_with_a_conversion()
    ensures twice { converting (named_at (codes "f") 6 12 ∷ named_at (codes "f") 6 15 ∷ []) []
        ≡ wrong Converted 6 15 }
    ensures missing { converting (named_at (codes "g") 6 12 ∷ []) [] ≡ wrong Converted 6 12 }
    ensures exempted { converting (named_at (codes "f") 6 12 ∷ []) (alone_at (call (codes "a") []) 6 24 ∷ [])
        ≡ wrong Exempt 6 24 }
{}

/// What an included trait assumes is to be discharged, and isn't implied once more.
pub fn what_is_assumed_is_discharged()
    ensures included { among_traits on_weak
        ≡ Ok (record {
          label = Assume 1;
          theory = record { operators = (base_theory (codes "A") (codes "B")).operators; statements = [] };
          statement = base_statement (codes "A") (codes "B");
        } ∷ []) }
    ensures implied_too { among_traits (claiming (implies_trait (codes "Base") ∷ []) [] [] on_weak)
        ≡ among_traits on_weak }
{}

/// An implied trait has no other operators than the trait, and is there.
pub fn what_is_wrong_with_an_implied_trait()
    ensures larger { among_traits (claiming (implies_trait (codes "Base") ∷ []) [] [] (a_trait (codes "T") [] [] []))
        ≡ wrong ImpliedOperator 3 11 }
    ensures missing { among_traits (claiming (implies_trait (codes "None") ∷ []) [] [] (a_trait (codes "T") [] [] []))
        ≡ wrong UnknownTrait 3 11 }
{}

/// What is implied is numbered: what implied traits state and the trait doesn't, then items, whatever the trait states;
/// each statement once.
pub fn what_is_implied_is_numbered()
    ensures item { with_items (fixed_item ∷ [])
        ≡ Ok (record { label = Imply 1; theory = function_theory [] []; statement = fixed_by (codes "f") } ∷ []) }
    ensures items { with_items (itself_item ∷ fixed_item ∷ itself_item ∷ [])
        ≡ Ok (record { label = Imply 1; theory = function_theory [] []; statement = same_itself }
        ∷ record { label = Imply 2; theory = function_theory [] []; statement = fixed_by (codes "f") } ∷ []) }
    ensures reference { among_traits (claiming (implies_trait (codes "Base") ∷ []) (base_item ∷ plain_item ∷ []) []
        like_base)
        ≡ Ok (record { label = Imply 1; theory = base_operators; statement = base_statement (codes "A") (codes "B") }
        ∷ record { label = Imply 2; theory = base_operators; statement = plain_statement } ∷ []) }
    ensures stated { among_traits (claiming (implies_trait (codes "Base") ∷ []) [] []
        (including_one (codes "T") (codes "Base"))) ≡ Ok [] }
{}

/// An implied reference may be wrong itself, or its names can't be given; that comes before what is wrong with its
/// operators.
pub fn what_is_wrong_with_an_implied_reference()
    ensures bad { implies_bad ≡ wrong BadReference 3 11 }
    ensures rename { among_traits (claiming (implies_by (for_old (codes "n") (codes "m") 3 24 ∷ []) ∷ []) [] []
        (a_trait (codes "T") [] [] [])) ≡ wrong Rename 3 24 }
    ensures count { among_traits (claiming (implies_by (Plain (bare (codes "n") 3 17) ∷ []) ∷ []) [] [] like_base)
        ≡ wrong Rename 3 11 }
{}

/// A copy has the first name that is free: of a word the word with ', of another operator its place in the clause.
pub fn copies_have_free_names()
    ensures primed { with_clauses_of (function_with (declares (codes "f'") (codes "S" ∷ []) (codes "S") ∷ []) [])
        (converts (named_at (codes "f") 6 12 ∷ []) [] ∷ [])
        ≡ Ok (record {
          label = Convert 1;
          theory = function_theory (function (codes "f'") ∷ function (codes "f''") ∷ []) (fixed_by (codes "f''") ∷ []);
          statement = same_functions (codes "f") (codes "f''");
        } ∷ []) }
    ensures symbol { with_clauses_of (function_with (declares_minus ∷ []) [])
        (converts (named_minus ∷ []) [] ∷ [])
        ≡ Ok (record {
          label = Convert 1;
          theory = function_theory (function (codes "- __") ∷ function (codes "conv1'") ∷ []) [];
          statement = same_functions (codes "- __") (codes "conv1'");
        } ∷ []) }
    ensures second { with_clauses_of (function_with (declares_minus ∷ []) [])
        (converts (named_at (codes "f") 6 12 ∷ named_minus ∷ []) [] ∷ [])
        ≡ Ok (record {
          label = Convert 1;
          theory = with_second_copy;
          statement = same_functions (codes "f") (codes "f'");
        } ∷ record {
          label = Convert 2;
          theory = with_second_copy;
          statement = same_functions (codes "- __") (codes "conv2'");
        } ∷ []) }
    ensures symbol_primed { with_clauses_of
        (function_with (declares_minus ∷ declares (codes "conv1'") [] (codes "Z") ∷ []) [])
        (converts (named_minus ∷ []) [] ∷ [])
        ≡ Ok (record {
          label = Convert 1;
          theory = function_theory (function (codes "- __") ∷ operator (codes "conv1'") [] (codes "Z")
              ∷ function (codes "conv1''") ∷ []) [];
          statement = same_functions (codes "- __") (codes "conv1''");
        } ∷ []) }
{}

/// A clause that names a converted operator is there once more too, by the copies.
pub fn clauses_are_copied()
    ensures { with_clauses_of (function_with [] (generates (codes "S") (codes "a" ∷ codes "f" ∷ []) ∷ []))
        (converts (named_at (codes "f") 6 12 ∷ []) [] ∷ [])
        ≡ Ok (record {
          label = Convert 1;
          theory = function_theory (function (codes "f'") ∷ [])
              (generated_by (codes "f") ∷ fixed_by (codes "f'") ∷ generated_by (codes "f'") ∷ []);
          statement = same_functions (codes "f") (codes "f'");
        } ∷ []) }
{}

/// There are a thousand duties at most.
pub fn duties_are_not_too_many()
    ensures refused { not_too_many (record { line = 1; column = 1 }) (so_many_duties 1001)
        ≡ Err (record { pos = record { line = 1; column = 1 }; code = Size }) }
    ensures fit { not_too_many (record { line = 1; column = 1 }) (so_many_duties 1000) ≡ Ok (so_many_duties 1000) }
{}
