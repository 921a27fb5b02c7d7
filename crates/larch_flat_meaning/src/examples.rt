//! Flat traits worked out, as the definitions compute them. No function here does anything.
ghost use Rattle.std.specs.Prelude.{◌≡◌, true, false, codes, [], ◌∷◌, ◌++◌, Ok, Err, replicate};
ghost use Rattle.larch_base.specs.declared.code.Code.TheVariants.{Arity, BadReference, BuiltIn, Cycle, FieldTwice};
ghost use Rattle.larch_base.specs.declared.code.Code.TheVariants.{NoReading, Rename, Size, TraitName, UnknownTrait};
ghost use Rattle.larch_raw.specs.declared.reference.RawActual.TheVariants.{Plain};
ghost use Rattle.larch_flat_meaning.specs.Examples.{a_trait, alone, assumptions, bad_files, bare, base_statement};
ghost use Rattle.larch_flat_meaning.specs.Examples.{base_theory, beside_base, circle, constants, declares_truth, diamond};
ghost use Rattle.larch_flat_meaning.specs.Examples.{for_old, for_one, including_one, made_theory, no_circle, no_theory};
ghost use Rattle.larch_flat_meaning.specs.Examples.{of_base, of_formal, of_overloaded, shown, so_many, sorts_made};
ghost use Rattle.larch_flat_meaning.specs.Examples.{faulty, for_constant, form_at, form_for, includes, nothing_flat};
ghost use Rattle.larch_flat_meaning.specs.Examples.{of_own_truth, so_stated, states_nothing, stating, twice_named};
ghost use Rattle.larch_flat_meaning.specs.Examples.{unfit, wrong};
ghost use Rattle.larch_flat_meaning.specs.Flat.{flat, take_flat, take_rest};
ghost use Rattle.larch_flat_meaning.specs.Gathered.{is_too_large};

/// All replacements act at once: two sorts change places.
pub fn names_are_exchanged_at_once()
    ensures { beside_base (of_base (for_old (codes "A") (codes "B") 2 24 ∷ for_old (codes "B") (codes "A") 2 33 ∷ []))
        ≡ Ok (base_theory (codes "B") (codes "A"), false ∷ [], []) }
{}

/// A formal is replaced by the form at its position.
pub fn a_formal_is_replaced()
    ensures { of_formal (Plain (bare (codes "C") 2 17) ∷ [])
        ≡ Ok (constants ((codes "a", codes "C") ∷ []), [], []) }
{}

/// A bare old name means all operators of the name, and with a signature the one of that signature.
pub fn an_old_name_means_all_of_its_operators()
    ensures bare { of_overloaded (for_old (codes "n") (codes "e") 2 24 ∷ [])
        ≡ Ok (constants ((codes "n", codes "A") ∷ (codes "n", codes "B") ∷ []), [], []) }
    ensures signed { of_overloaded (for_one ∷ [])
        ≡ Ok (constants ((codes "e", codes "A") ∷ (codes "n", codes "B") ∷ []), [], []) }
{}

/// What comes by two ways is there once.
pub fn what_comes_twice_is_there_once()
    ensures { shown (flat 256 diamond (codes "Dia")) ≡ Ok (base_theory (codes "A") (codes "B"), false ∷ [], []) }
{}

/// Two traits that include each other are both refused, and neither is where one of them includes nothing.
pub fn a_circle_is_refused()
    ensures first { shown (flat 256 circle (codes "P")) ≡ wrong Cycle 2 12 }
    ensures second { shown (flat 256 circle (codes "Q")) ≡ wrong Cycle 2 12 }
    ensures mended { shown (flat 256 no_circle (codes "P")) ≡ Ok (no_theory, [], []) }
{}

/// What is assumed, what is asserted although it is assumed too, and what is to be discharged.
pub fn assumptions_are_kept_or_discharged()
    ensures assumed { shown (flat 256 assumptions (codes "Low"))
        ≡ Ok (base_theory (codes "A") (codes "B"), true ∷ [], []) }
    ensures taken_over { shown (flat 256 assumptions (codes "High"))
        ≡ Ok (base_theory (codes "A") (codes "B"), true ∷ [], []) }
    ensures discharged { shown (flat 256 assumptions (codes "Use"))
        ≡ Ok (
          record { operators = (base_theory (codes "A") (codes "B")).operators; statements = [] },
          [],
          base_statement (codes "A") (codes "B") ∷ [],
        ) }
    ensures stated { shown (flat 256 assumptions (codes "Own"))
        ≡ Ok (base_theory (codes "A") (codes "B"), false ∷ [], []) }
    ensures asserted { shown (flat 256 assumptions (codes "Both"))
        ≡ Ok (base_theory (codes "A") (codes "B"), false ∷ [], []) }
{}

/// An enumeration and a union stand for operators and statements, in order.
pub fn shorthands_stand_for_operators_and_statements()
    ensures { alone sorts_made ≡ Ok (made_theory, replicate 10 false, []) }
{}

/// Each code of a reference or a trait, where it stands.
pub fn each_code_stands_in_its_place()
    ensures trait_name { alone (a_trait (codes "U") [] [] []) ≡ wrong TraitName 1 1 }
    ensures unknown_trait { alone (including_one (codes "T") (codes "Z")) ≡ wrong UnknownTrait 2 12 }
    ensures itself { alone (including_one (codes "T") (codes "T")) ≡ wrong Cycle 2 12 }
    ensures rename_nothing { beside_base (of_base (for_old (codes "A") (codes "C") 2 24 ∷ [])) ≡ wrong Rename 2 24 }
    ensures rename_bool { beside_base (of_base (for_old (codes "A") (codes "Bool") 2 24 ∷ [])) ≡ wrong Rename 2 24 }
    ensures rename_twice { beside_base (of_base (for_old (codes "c") (codes "a") 2 24
        ∷ for_old (codes "d") (codes "a") 2 33 ∷ [])) ≡ wrong Rename 2 33 }
    ensures rename_too_many { of_formal (Plain (bare (codes "C") 2 17) ∷ Plain (bare (codes "D") 2 20) ∷ [])
        ≡ wrong Rename 2 12 }
    ensures bad_reference { shown (flat 256 bad_files (codes "U")) ≡ wrong BadReference 2 12 }
    ensures rename_to_built_in { beside_base (of_base (for_old (codes "Bool") (codes "A") 2 24
        ∷ for_old (codes "true") (codes "a") 2 33 ∷ [])) ≡ wrong Rename 2 12 }
    ensures field_twice { alone twice_named ≡ wrong FieldTwice 2 26 }
    ensures arity { alone unfit ≡ wrong Arity 3 5 }
    ensures built_in { alone declares_truth ≡ wrong BuiltIn 3 5 }
    ensures no_reading { alone states_nothing ≡ wrong NoReading 4 5 }
    ensures size { is_too_large (so_many 1001) ≡ true }
    ensures not_yet { is_too_large (so_many 1000) ≡ false }
{}

/// What can't be renamed, where it stands.
pub fn what_cannot_be_renamed()
    ensures markers { beside_base (of_base (form_for (codes "f") ∷ [])) ≡ wrong Rename 2 24 }
    ensures sort_to_form { beside_base (of_base (form_for (codes "A") ∷ [])) ≡ wrong Rename 2 24 }
    ensures no_signature { of_overloaded (for_constant (codes "e") (codes "C") ∷ []) ≡ wrong Rename 2 24 }
    ensures formal_to_form { of_formal (Plain (form_at (codes "__ + __") false 2 2 17) ∷ []) ≡ wrong Rename 2 17 }
    ensures formal_named { of_formal (Plain (bare (codes "C") 2 17) ∷ for_old (codes "D") (codes "A") 2 24 ∷ [])
        ≡ wrong Rename 2 24 }
    ensures truth { beside_base (of_base (for_old (codes "n") (codes "true") 2 24 ∷ [])) ≡ wrong Rename 2 24 }
    ensures signed_truth { beside_base (of_base (for_constant (codes "true") (codes "Bool") ∷ []))
        ≡ wrong Rename 2 24 }
    ensures bare_truth { of_own_truth (for_old (codes "n") (codes "true") 2 24 ∷ []) ≡ wrong Rename 2 24 }
    ensures own_truth { of_own_truth (for_constant (codes "true") (codes "A") ∷ [])
        ≡ Ok (constants ((codes "n", codes "A") ∷ []), [], []) }
{}

/// What is too large, and where SIZE stands: at a reference behind its other codes, and at the trait's name behind all
/// others.
pub fn what_is_too_large()
    ensures statements { is_too_large (stating (so_stated 1001 0)) ≡ true }
    ensures statements_fit { is_too_large (stating (so_stated 1000 0)) ≡ false }
    ensures nodes { is_too_large (stating (so_stated 1 99 ++ so_stated 999 98)) ≡ true }
    ensures nodes_fit { is_too_large (stating (so_stated 1000 98)) ≡ false }
    ensures reference { take_flat (includes (codes "Base") 2 12 []) (so_many 1001) nothing_flat
        ≡ Err (faulty Size 2 12) }
    ensures rename_first { take_flat (includes (codes "Base") 2 12 (for_old (codes "n") (codes "m") 2 24 ∷ []))
        (so_many 1001) nothing_flat ≡ Err (faulty Rename 2 24) }
    ensures name { take_rest (a_trait (codes "T") [] [] []) (so_many 1001) ≡ Err (faulty Size 1 1) }
    ensures items_first { take_rest states_nothing (so_many 1001) ≡ Err (faulty NoReading 4 5) }
{}
