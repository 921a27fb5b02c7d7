//! Laws of findings. No function here does anything.
ghost use Rattle.std.specs.Prelude.{◌≡◌, ◌++◌, ℕ, List, None, codes};
ghost use Rattle.larch_base.specs.Label.{label_text};
ghost use Rattle.larch_base.specs.declared.label.Label.{Label};
ghost use Rattle.larch_calculus.specs.Derivable.{Derivable};
ghost use Rattle.larch_models_answer.specs.Failing.{FailsIn, HasLine, failing_line};
ghost use Rattle.larch_models_answer.specs.Judgements.{claim_line, judge_model};
ghost use Rattle.larch_models_meaning.specs.FiniteModel.{first_failing, interpretation_of};
ghost use Rattle.larch_models_meaning.specs.declared.finite_model.FiniteModel.{FiniteModel};
ghost use Rattle.larch_term.specs.Statement.{IsWellSortedTheory};
ghost use Rattle.larch_term.specs.declared.statement.Statement.{Statement};
ghost use Rattle.larch_term.specs.declared.statement.Theory.{Theory};

use larch_models::from_soundness::laws::finite_models;

/// In a model of a well sorted theory, the line of each claim that is derivable from it says that it holds. So where a
/// line says `fails`, the claim isn't derivable.
pub fn derivable_claims_hold()
    ensures { (t : Theory) (m : FiniteModel) (label : Label) (s : Statement) → IsWellSortedTheory t
        → first_failing (interpretation_of m) t.statements ≡ None → Derivable t s
        → claim_line (interpretation_of m) label s ≡ label_text label ++ codes " holds\n" }
{
    finite_models()
}

/// A line says that a claim fails only where the text is a model of the theory in which some claim with this label
/// doesn't hold. If the theory is well sorted, this claim isn't derivable from it.
pub fn failing_claims_fail()
    ensures fails { (t : Theory) (assumed implied : List Statement) (text : List ℕ) (label : Label)
        → HasLine (judge_model t assumed implied text).text (failing_line label) → FailsIn t assumed implied label }
    ensures underivable { (t : Theory) (assumed implied : List Statement) (label : Label)
        (found : FailsIn t assumed implied label) → IsWellSortedTheory t → Derivable t found.claim → ⊥ }
{}
