//! Generated traits, worked out. No function here does anything.
ghost use Rattle.std.specs.Prelude.{◌≡◌, codes, map};
ghost use Rattle.larch_generate.specs.Examples.{first_trait};
ghost use Rattle.larch_generate.specs.Generator.{height_of, next_number, trait_text};

/// The first number that the seed 1 makes, and the first trait.
pub fn first_of_one()
    ensures number { next_number 1 ≡ 1103527590 }
    ensures height { height_of 1103527590 ≡ 6 }
    ensures text { trait_text 0 6 ≡ first_trait }
{}
