ghost use Rattle.std.specs.Prelude.{◌≡◌, ◌++◌, ◌∷◌, [], IfOk, OnOk, true};
ghost use Rattle.larch_derive_join.specs.Promise.{AreWritable, Prove};
ghost use Rattle.larch_session_replay.specs.ProveState.{IsProvedState, told_outcome};
ghost use Rattle.larch_prove_meaning.specs.Reports.{is_proved};
ghost use Rattle.larch_session_derive.specs.Parts.{AreReplayed, HasCertificate, IsPartOf, IsWithLemma, IsWithPart};

use crate::serving::may_be_lemma;
use larch_base::{Memory, Sequence};
use larch_derive_join::{Part, Parts};
use larch_session_replay::Replayed;
use std::alloc::Global;

// The parts of the certificate of a duty that is proved: those of its lemmas, and its own.
pub(crate) fn parts_of(alloc: Global, own: &Replayed, earlier: &[Replayed]) -> Result<Parts, Memory>
    requires replayed { AreReplayed (earlier.now ++ own.now ∷ []) }
    requires proved { is_proved (told_outcome own.now.outcome) ≡ true }
    ensures proved { IfOk result (λ parts. Prove own.now.claim.theory parts own.now.claim.statement) }
    ensures writable { IfOk result AreWritable }
{
    let clause = clause_of(own);
    let mut parts = Sequence::new(alloc);
    for replayed in earlier {
        push_if_lemma(&mut parts, clause, replayed)?;
    }
    push_part(&mut parts, own)?;
    Ok(parts)
}

// The clause that a duty belongs to, if it does.
fn clause_of(replayed: &Replayed) -> Option<u32>
    ensures { result ≡ replayed.now.claim.clause }
{
    replayed.claim.clause
}

// Puts the part of a duty behind others, if it is a lemma of those of a clause, or of none.
fn push_if_lemma(parts: &mut Parts, clause: Option<u32>, replayed: &Replayed) -> Result<(), Memory>
    requires { HasCertificate replayed.now }
    ensures { OnOk result (IsWithLemma clause replayed.now parts.old parts.new) }
{
    if !may_be_lemma(replayed, clause) {
        return Ok(());
    }
    push_part(parts, replayed)
}

// Puts the part of a duty behind others.
fn push_part(parts: &mut Parts, replayed: &Replayed) -> Result<(), Memory>
    requires { IsProvedState replayed.now.state }
    ensures { OnOk result (IsWithPart replayed.now parts.old parts.new) }
{
    let part = part_of(replayed)?;
    parts.push(part)
}

// The part of a duty.
fn part_of(replayed: &Replayed) -> Result<Part, Memory>
    requires { IsProvedState replayed.now.state }
    ensures { IfOk result (IsPartOf replayed.now) }
{
    let certificate = replayed.state.certificate()?;
    Ok(Part {
        statements: replayed.claim.theory.statements.as_slice().len() as u64,
        certificate,
    })
}
