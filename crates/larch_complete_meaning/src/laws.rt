//! What holds of all completions, for crates above to cite. No function here does anything.
ghost use Rattle.std.specs.Prelude.{◌≡◌, ℕ, All};
ghost use Rattle.larch_term.specs.Statement.{IsWellSortedTheory};
ghost use Rattle.larch_term.specs.declared.statement.Theory.{Theory};
ghost use Rattle.larch_complete_meaning.specs.Completion.{Decides, IsDerivable, complete, equations_of};
ghost use Rattle.larch_complete_meaning.specs.declared.answer.CompletionAnswer.TheVariants.{Complete};

/// Where the answer is complete, both sides of each equation of the theory, and of each critical pair of the rules,
/// have one normal form by them.
pub fn complete_rules_decide()
    ensures { (theory : Theory) (limit : ℕ) → (complete theory limit).answer ≡ Complete
        → Decides (complete theory limit).rules limit (equations_of theory) }
{}

/// Each rule is derivable from the theory, whatever the answer is.
pub fn rules_are_derivable()
    ensures { (theory : Theory) (limit : ℕ) → IsWellSortedTheory theory
        → All (IsDerivable theory) (complete theory limit).rules }
{}
