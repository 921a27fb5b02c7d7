ghost use Rattle.std.specs.Prelude.{◌≡◌, ℕ, ◌<◌, ◌^◌, ◌+◌, ◌++◌, IfOk, OnOk, length, sum_by};
ghost use Rattle.larch_certificate_text.specs.CertificateText.{Writable};
ghost use Rattle.larch_derive_join.specs.Joined.{join_parts, joined_lines, lemma_of, shows_clause};
ghost use Rattle.larch_derive_join.specs.Promise.{AreWritable, Prove};
ghost use Rattle.larch_term.specs.declared.statement.Statement.{Statement};
ghost use Rattle.larch_term.specs.declared.statement.Theory.{Theory};
ghost use Rattle.larch_verify_meaning.specs.Acceptance.{Accepts};
ghost use Rattle.larch_verify_meaning.specs.LastLine.{EndsWithoutStatedClause};

use crate::lemma::Lemma;
use crate::line::join_line;
use crate::part::{Part, Parts};
use crate::shift::Shift;
use larch_base::{Memory, Sequence};
use larch_certificate::{Certificate, Line};
use std::alloc::Global;

/// The certificate of what is proved last, with those of its lemmas in front: each part's lines once, in order, and no
/// line cites a lemma as a statement of the theory.
///
/// Over each theory whose statements are well sorted and whose operators have plain names: where each part is accepted
/// for its statement over a theory that begins the whole one, with the earlier parts' statements behind its own, and
/// doesn't end with an axiom line of a clause, the answer is accepted for the last statement over the whole theory, and
/// doesn't end so either. Where all parts can be written, so can the answer. It has as many lines as all of them.
///
/// The time is linear in the parts. Terms may be of any depth.
pub fn inline(alloc: Global, parts: &Parts) -> Result<Certificate, Memory>
    ensures lines { IfOk result (λ joined. joined ≡ join_parts parts.now) }
    ensures accepted { IfOk result (λ joined. (whole : Theory) (last : Statement) → Prove whole parts.now last
        → Accepts whole last joined) }
    ensures ends { IfOk result (λ joined. (whole : Theory) (last : Statement) → Prove whole parts.now last
        → EndsWithoutStatedClause whole joined) }
    ensures writable { IfOk result (λ joined. AreWritable parts.now → Writable joined) }
    ensures count { IfOk result (λ joined. length joined ≡ sum_by (λ p. length p.certificate) parts.now) }
{
    let mut lines = Sequence::new(alloc);
    let mut lemmas = Vec::new(alloc);
    for part in parts.as_slice() {
        push_part(alloc, &mut lines, lemmas.as_slice(), part)?;
        lemmas.push(lemma_of(line_count(&lines), part))?;
    }
    Ok(lines)
}

// How many lines there are.
fn line_count(lines: &Certificate) -> u64
    ensures { result ≡ length lines.now }
{
    lines.as_slice().len() as u64
}

// The part as a lemma of later ones, where its lines end with this number.
fn lemma_of(line: u64, part: &Part) -> Lemma
    ensures { (o : ℕ) → line ≡ o + length part.now.certificate → result ≡ lemma_of o part.now }
{
    Lemma {
        line,
        clause: part.certificate.as_slice().last().is_some_and(shows_clause),
    }
}

// Whether the rule of a line says a clause; of axiom lines this doesn't tell.
fn shows_clause(line: &Line) -> bool
    ensures { result ≡ shows_clause line.now }
{
    matches!(line, Line::Generated(..) | Line::Partitioned(..))
}

// Puts the lines of a part behind others.
fn push_part(
    alloc: Global,
    lines: &mut Certificate,
    lemmas: &[Lemma],
    part: &Part,
) -> Result<(), Memory>
    ensures { OnOk result (lines.new ≡ lines.old ++ joined_lines (length lines.old) lemmas.now part.now) }
{
    let shift = Shift {
        by: line_count(lines),
        lemmas,
        part,
    };
    for line in part.certificate.as_slice() {
        let line = join_line(alloc, &shift, line)?;
        lines.push(line)?;
    }
    Ok(())
}
