//! What holds of the rows, for crates above to cite. No function here does anything.
ghost use Rattle.std.specs.Prelude.{◌≡◌, ◌↔◌, ◌≤◌, ℕ, List, All, Some, IsSome};
ghost use Rattle.larch_calculus.specs.BaseByNumber.{numbered};
ghost use Rattle.larch_calculus.specs.TermStatementStatement.{Statement};
ghost use Rattle.larch_calculus.specs.TermStatementTheory.{Theory};
ghost use Rattle.larch_calculus.specs.TermSubstitutionEntry.{Entry};
ghost use Rattle.larch_calculus.specs.Derivable.{Derivable};
ghost use Rattle.larch_tables.specs.Row.{PlainRow};
ghost use Rattle.larch_tables.specs.Statement.{offered_row, IsIdentityStatement};
ghost use Rattle.larch_tables.specs.Tables.{built_in_rows, deduction_rows};
ghost use Rattle.larch_calculus.specs.TermSubstitution.{substituted_statement};

use larch_calculus::laws::{
    arguments, derivable_is_well_sorted, identity_with_terms, transitivity,
};

/// The built-in rows have the numbers 1 to 40, the deduction rows 1 to 7.
pub fn numbers_of_rows()
    ensures built_in { (s : List ℕ) (n : ℕ) → (IsSome (numbered (built_in_rows s) n) ↔ ((1 ≤ n) × (n ≤ 40))) }
    ensures deductions { (s : List ℕ) (n : ℕ) → (IsSome (numbered (deduction_rows s) n) ↔ ((1 ≤ n) × (n ≤ 7))) }
{}

/// Each built-in row is an identity at every sort, so whatever is offered is one.
pub fn rows_are_identities()
    ensures rows { (s : List ℕ) (n : ℕ) (row : PlainRow) → numbered (built_in_rows s) n ≡ Some row →
        IsIdentityStatement row.given }
    ensures offered { (s : List ℕ) (n : ℕ) (statement : Statement) → offered_row n s ≡ Some statement →
        IsIdentityStatement statement }
{}

/// The consequences of a deduction row are derivable wherever its equation is: from each theory, at each sort and with
/// any terms in the places of the variables.
pub fn consequences_are_derivable()
    ensures { (t : Theory) (s : List ℕ) (es : List Entry) (n : ℕ) (row : PlainRow) →
        numbered (deduction_rows s) n ≡ Some row → Derivable t (substituted_statement es row.given) →
        All (λ c. Derivable t (substituted_statement es c)) row.consequences }
{
    identity_with_terms();
    transitivity();
    derivable_is_well_sorted();
    arguments();
}
