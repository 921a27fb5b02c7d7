ghost use Rattle.std.specs.Prelude.{◌≡◌, ◌<◌, ◌≤◌, ℕ, IfOk, length};
ghost use Rattle.larch_calculus.specs.Renaming.{HasPlainNames};
ghost use Rattle.larch_term.specs.Statement.{IsWellSortedTheory};
ghost use Rattle.larch_term.specs.declared.statement.Statement.{Statement};
ghost use Rattle.larch_term.specs.declared.statement.Theory.{Theory};
ghost use Rattle.larch_trim.specs.ByNumbers.{number_at};
ghost use Rattle.larch_trim_meaning.specs.Needed.{Needed};
ghost use Rattle.larch_trim_meaning.specs.Trimmed.{kept_lines, new_number, trim_lines};
ghost use Rattle.larch_verify_meaning.specs.Acceptance.{Accepts};

use crate::line::move_line;
use crate::needed::needed_marks;
use crate::numbers::NewNumbers;
use larch_base::{Memory, Sequence};
use larch_certificate::{Certificate, Line};
use std::alloc::Global;

/// The certificate without the lines that its end doesn't need: what is left keeps its order and gets new numbers.
///
/// Over each theory whose statements are well sorted and whose operators have plain names, where the certificate is
/// accepted for a statement, so is the answer. Where it is accepted over any theory, each line of the answer is needed
/// in it, and trimming the answer leaves it as it is.
///
/// The time is linear in the certificate. Terms may be of any depth.
pub fn trim(alloc: Global, certificate: &Certificate) -> Result<Certificate, Memory>
    ensures lines { IfOk result (λ left. left ≡ trim_lines certificate.now) }
    ensures accepted { IfOk result (λ left. (t : Theory) (s : Statement) → IsWellSortedTheory t → HasPlainNames t
        → Accepts t s certificate.now → Accepts t s left) }
    ensures needed { IfOk result (λ left. (t : Theory) (s : Statement) → Accepts t s certificate.now → (n : ℕ) → 0 < n
        → n ≤ length left → Needed left n) }
    ensures again { IfOk result (λ left. (t : Theory) (s : Statement) → Accepts t s certificate.now
        → trim_lines left ≡ left) }
{
    let lines = certificate.as_slice();
    let marks = needed_marks(alloc, lines)?;
    let numbers = NewNumbers::new(alloc, marks.as_slice())?;
    keep_lines(alloc, lines, marks.as_slice(), &numbers)
}

// The lines with marks, with the new numbers of what they name.
fn keep_lines(
    alloc: Global,
    lines: &[Line],
    marks: &[bool],
    numbers: &NewNumbers,
) -> Result<Certificate, Memory>
    requires long { length marks.now ≡ length lines.now }
    requires numbers { (n : ℕ) → number_at numbers.now n ≡ new_number marks.now n }
    ensures { IfOk result (λ left. left ≡ kept_lines marks.now lines.now) }
{
    let mut left = Sequence::new(alloc);
    for i in 0..lines.len() {
        if marks[i] {
            let line = move_line(alloc, numbers, &lines[i])?;
            left.push(line)?;
        }
    }
    Ok(left)
}
