ghost use Rattle.std.specs.Prelude.{◌≡◌, ◌&&◌, ◌++◌, ◌∷◌, [], map, List, IfOk, OnOk};
ghost use Rattle.larch_session_trail.specs.ProveState.{told_outcome};
ghost use Rattle.larch_prove_meaning.specs.Reports.{Answered, is_proved, lemmas_for, may_serve};
ghost use Rattle.larch_session_trail.specs.ProveOpeningStating.{duties_of};
ghost use Rattle.larch_session_blocks.specs.SessionMeaningTraits.{script_duty};
ghost use Rattle.larch_session_replay.specs.Replayed.{answer_of};

use larch_base::{Memory, Sequence};
use larch_session_blocks::from_duties::Claim;
use larch_session_replay::Replayed;
use larch_session_trail::from_prove::{Lemma, Outcome};
use larch_term::copy_statement;
use std::alloc::Global;

// The lemmas of a duty: earlier ones that are proved and may serve it.
pub(crate) fn lemmas_for(
    alloc: Global,
    claim: &Claim,
    earlier: &[Replayed],
) -> Result<Sequence<Lemma>, Memory>
    ensures { IfOk result (λ lemmas. duties_of lemmas
        ≡ lemmas_for (script_duty claim.now) (map answer_of earlier.now)) }
{
    let mut lemmas = Sequence::new(alloc);
    for replayed in earlier {
        push_if_lemma(alloc, &mut lemmas, claim, replayed)?;
    }
    Ok(lemmas)
}

// Puts what a duty states behind other lemmas, if it is a lemma of another duty.
fn push_if_lemma(
    alloc: Global,
    lemmas: &mut Sequence<Lemma>,
    claim: &Claim,
    replayed: &Replayed,
) -> Result<(), Memory>
    ensures { OnOk result ((rest : List Answered)
        → duties_of lemmas.new ++ lemmas_for (script_duty claim.now) rest
        ≡ duties_of lemmas.old ++ lemmas_for (script_duty claim.now) (answer_of replayed.now ∷ rest)) }
{
    if !may_be_lemma(replayed, claim.clause) {
        return Ok(());
    }
    push_lemma(alloc, lemmas, replayed)
}

// Puts what a duty states behind other lemmas.
fn push_lemma(
    alloc: Global,
    lemmas: &mut Sequence<Lemma>,
    replayed: &Replayed,
) -> Result<(), Memory>
    ensures { OnOk result (duties_of lemmas.new ≡ duties_of lemmas.old
        ++ record { number = replayed.now.number; statement = replayed.now.claim.statement } ∷ []) }
{
    let statement = copy_statement(alloc, &replayed.claim.statement)?;
    let number = replayed.number;
    lemmas.push(Lemma { number, statement })
}

// Whether a duty is proved and may serve those of a clause, or of none.
fn may_be_lemma(replayed: &Replayed, clause: Option<u32>) -> bool
    ensures { result ≡ (is_proved (told_outcome replayed.now.outcome) && may_serve replayed.now.claim.clause clause) }
{
    is_proved(&replayed.outcome) && may_serve(replayed.claim.clause, clause)
}

// Whether an outcome is that all is proved.
fn is_proved(outcome: &Outcome) -> bool
    ensures { result ≡ is_proved (told_outcome outcome.now) }
{
    match outcome {
        Outcome::Proved => true,
        Outcome::Suspended { .. } | Outcome::Refused { .. } => false,
    }
}

// Whether a duty of a clause, or of none, may serve those of another.
fn may_serve(own: Option<u32>, other: Option<u32>) -> bool
    ensures { result ≡ may_serve own other }
{
    match (own, other) {
        (None, _) => true,
        (Some(_), None) => false,
        (Some(number), Some(second)) => number == second,
    }
}
