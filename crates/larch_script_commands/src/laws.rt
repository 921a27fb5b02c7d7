//! What holds of commands, for crates above to cite. No function here does anything.
ghost use Rattle.std.specs.Prelude.{◌≡◌, ◌↔◌, IsTrue, List, map};
ghost use Rattle.std.specs.Cmp.Lexicographic.{pointwise};
ghost use Rattle.larch_script_commands.specs.Bare.{bare_kind};
ghost use Rattle.larch_script_commands.specs.Same.{same_kind};
ghost use Rattle.larch_script_commands.specs.declared.command.CommandKind.{CommandKind};

/// The tests that compute are passed exactly by what is equal without positions: so there is one sameness of commands,
/// that of the functions here and that of definitions.
pub fn one_sameness()
    ensures kinds { (c d : CommandKind) → IsTrue (same_kind c d) ↔ (bare_kind c ≡ bare_kind d) }
    ensures lists { (cs ds : List CommandKind)
        → IsTrue (pointwise same_kind cs ds) ↔ (map bare_kind cs ≡ map bare_kind ds) }
{}
