//! What holds of trimmed certificates, for crates above to cite. No function here does anything.
ghost use Rattle.std.specs.Prelude.{◌≡◌, ◌↔◌, ◌<◌, ◌≤◌, ℕ, List, length, true};
ghost use Rattle.larch_calculus.specs.Renaming.{HasPlainNames};
ghost use Rattle.larch_certificate.specs.declared.line.Line.{Line};
ghost use Rattle.larch_term.specs.Statement.{IsWellSortedTheory};
ghost use Rattle.larch_term.specs.declared.statement.Statement.{Statement};
ghost use Rattle.larch_term.specs.declared.statement.Theory.{Theory};
ghost use Rattle.larch_verify_meaning.specs.Acceptance.{Accepts};
ghost use Rattle.larch_trim_meaning.specs.Needed.{Needed};
ghost use Rattle.larch_trim_meaning.specs.Reached.{is_marked};
ghost use Rattle.larch_trim_meaning.specs.Trimmed.{needed_marks, trim_lines};

/// The marks that are computed are those of needed lines: the least set that has the last line, and with each line what
/// it needs.
pub fn needed_lines_are_marked()
    ensures { (lines : List Line) (n : ℕ) → (is_marked (needed_marks lines) n ≡ true ↔ Needed lines n) }
{}

/// Over a theory whose statements are well sorted and whose operators have plain names, a certificate is accepted
/// without the lines that its end doesn't need, for the same statement.
pub fn trimmed_is_accepted()
    ensures { (t : Theory) (s : Statement) (lines : List Line) → IsWellSortedTheory t → HasPlainNames t
        → Accepts t s lines → Accepts t s (trim_lines lines) }
{}

/// Of an accepted certificate each line that is left is needed in what is left.
pub fn trimmed_lines_are_needed()
    ensures { (t : Theory) (s : Statement) (lines : List Line) → Accepts t s lines → (n : ℕ) → 0 < n
        → n ≤ length (trim_lines lines) → Needed (trim_lines lines) n }
{}

/// So trimming what is left leaves it as it is.
pub fn trimming_twice_is_once()
    ensures { (t : Theory) (s : Statement) (lines : List Line) → Accepts t s lines
        → trim_lines (trim_lines lines) ≡ trim_lines lines }
{}
