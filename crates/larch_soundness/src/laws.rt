//! What holds of finite models, for crates above to cite. No function here does anything.
ghost use Rattle.std.specs.Prelude.{◌≡◌, ◌↔◌, ◌≤◌, ℕ, List, Bool, true, false, None, Some};
ghost use Rattle.std.specs.List.{list_all};
ghost use Rattle.larch_term.specs.BuiltIn.{IsBuiltIn};
ghost use Rattle.larch_term.specs.Operator.{PlainOperator};
ghost use Rattle.larch_term.specs.Statement.{IsStatementOver, IsWellSortedTheory};
ghost use Rattle.larch_term.specs.Tree.{Tree};
ghost use Rattle.larch_term.specs.declared.statement.Statement.{Statement};
ghost use Rattle.larch_term.specs.declared.statement.Statement.TheVariants.{Equation};
ghost use Rattle.larch_term.specs.declared.statement.Theory.{Theory};
ghost use Rattle.larch_term.specs.Truth.{truth};
ghost use Rattle.larch_calculus.specs.Derivable.{Derivable};
ghost use Rattle.larch_calculus.specs.Formula.{falsity};
ghost use Rattle.larch_calculus.specs.Identity.{IsIdentity};
ghost use Rattle.larch_models_meaning.specs.Computed.{holds, all_hold};
ghost use Rattle.larch_models_meaning.specs.FiniteModel.{FailsFirst, first_failing, interpretation_of};
ghost use Rattle.larch_models_meaning.specs.declared.finite_model.FiniteModel.{FiniteModel};
ghost use Rattle.larch_soundness.specs.Conditions.{Refutes};
ghost use Rattle.larch_models_meaning.specs.Interpretation.{Interpretation, IsInterpretation};
ghost use Rattle.larch_models_meaning.specs.Models.{Holds, IsModel};
ghost use Rattle.larch_models_meaning.specs.Standard.{standard};

/// An identity holds in every interpretation.
pub fn identities_hold()
    ensures { (m : Interpretation) (fs : List PlainOperator) (l r : Tree) → IsInterpretation fs m → IsIdentity l r
        → Holds m (Equation l r) }
{}

/// What is derivable from a well sorted theory holds in each model of it. So what fails in a model isn't derivable, and
/// that true equals false is derivable from no well sorted theory that has a model.
pub fn soundness()
    ensures holding { (t : Theory) (s : Statement) (m : Interpretation) → IsWellSortedTheory t → IsModel m t
        → Derivable t s → Holds m s }
    ensures computed { (t : Theory) (s : Statement) (m : Interpretation) → IsWellSortedTheory t → IsModel m t
        → Derivable t s → holds m s ≡ true }
    ensures refuted { (t : Theory) (s : Statement) (m : Interpretation) → Refutes m t s → Derivable t s → ⊥ }
    ensures consistent { (t : Theory) (m : Interpretation) → IsWellSortedTheory t → IsModel m t
        → Derivable t (Equation truth falsity) → ⊥ }
{}

/// Computed truth is truth, of statements and of theories.
pub fn computing()
    ensures statement { (fs : List PlainOperator) (m : Interpretation) (s : Statement)
        → IsInterpretation fs m → IsStatementOver fs s → (holds m s ≡ true ↔ Holds m s) }
    ensures theory { (t : Theory) (m : Interpretation) → IsInterpretation t.operators m → IsWellSortedTheory t
        → (all_hold m t ≡ true ↔ IsModel m t) }
{}

/// A standard interpretation is one of every list of operators, whatever its tables. It has the last values and the
/// tables that it was given, where these fit. What is derivable from a well sorted theory, all of whose statements are
/// true in it, is true in it.
pub fn standard_interpretations()
    ensures interprets { (last : List ℕ → ℕ) (tables : PlainOperator → List ℕ → ℕ) (fs : List PlainOperator)
        → IsInterpretation fs (standard last tables) }
    ensures keeps { (last : List ℕ → ℕ) (tables : PlainOperator → List ℕ → ℕ) (f : PlainOperator) (vs : List ℕ)
        → (IsBuiltIn f → ⊥) → tables f vs ≤ (standard last tables).last f.range
        → (standard last tables).table f vs ≡ tables f vs }
    ensures sound { (t : Theory) (s : Statement) (last : List ℕ → ℕ) (tables : PlainOperator → List ℕ → ℕ)
        → IsWellSortedTheory t → all_hold (standard last tables) t ≡ true → Derivable t s
        → holds (standard last tables) s ≡ true }
{}

/// Of some statements there is a first one that doesn't hold, or all hold.
pub fn failing_statements()
    ensures none { (m : Interpretation) (ss : List Statement)
        → (first_failing m ss ≡ None ↔ list_all (holds m) ss ≡ true) }
    ensures some { (m : Interpretation) (ss : List Statement) (k : ℕ) → first_failing m ss ≡ Some k
        → FailsFirst m ss k }
{}

/// A finite model as data stands for an interpretation of every list of operators. What is derivable from a well sorted
/// theory no statement of which fails there holds there.
pub fn finite_models()
    ensures interprets { (m : FiniteModel) (fs : List PlainOperator) → IsInterpretation fs (interpretation_of m) }
    ensures sound { (t : Theory) (s : Statement) (m : FiniteModel) → IsWellSortedTheory t
        → first_failing (interpretation_of m) t.statements ≡ None → Derivable t s
        → holds (interpretation_of m) s ≡ true }
{}
