//! What holds of what is told, for crates above to cite. No function here does anything.
ghost use Rattle.std.specs.Prelude.{◌≡◌, ℕ, true};
ghost use Rattle.larch_complete_answer.specs.Told.{TellsRules, completion_told};
ghost use Rattle.larch_term.specs.Statement.{IsWellSortedTheory};
ghost use Rattle.larch_term.specs.declared.statement.Theory.{Theory};

use larch_complete_meaning::laws::{complete_rules_decide, rules_are_derivable};

/// What is told to be complete are rules that are derivable from the theory, and that give both sides of each of its
/// equations and of each of their own critical pairs one normal form.
pub fn what_is_told_complete_decides()
    ensures { (theory : Theory) (limit : ℕ) → IsWellSortedTheory theory → (completion_told theory limit).complete ≡ true
        → TellsRules theory limit (completion_told theory limit).text }
{
    complete_rules_decide();
    rules_are_derivable()
}
