//! Shorthands worked out, as the definitions compute them. No function here does anything.
ghost use Rattle.std.specs.Prelude.{◌≡◌, codes, [], ◌∷◌, Ok, Err};
ghost use Rattle.larch_base.specs.declared.code.Code.TheVariants.{FieldTwice};
ghost use Rattle.larch_shorthand.specs.Examples.{field_at, made_pair, made_single, tuple_of};
ghost use Rattle.larch_shorthand.specs.Shorthand.{expand};

/// A tuple stands for what makes it, what gives each value, and what sets each one.
pub fn a_tuple_is_made_got_and_set()
    ensures two { expand (tuple_of (field_at (codes "a") (codes "A") 5 ∷ field_at (codes "b") (codes "B") 8 ∷ []))
        ≡ Ok made_pair }
    ensures one { expand (tuple_of (field_at (codes "a") (codes "A") 5 ∷ [])) ≡ Ok made_single }
    ensures twice { expand (tuple_of (field_at (codes "a") (codes "A") 5 ∷ field_at (codes "a") (codes "B") 8 ∷ []))
        ≡ Err (record { pos = record { line = 1; column = 8 }; code = FieldTwice }) }
{}
