ghost use Rattle.std.specs.Prelude.{◌≡◌};
ghost use Rattle.larch_session_replay.specs.ProveState.{told_outcome};
ghost use Rattle.larch_prove_meaning.specs.Reports.{is_proved, may_serve};
ghost use Rattle.larch_session_derive.specs.Parts.{may_be_lemma};

use larch_session_replay::Replayed;
use larch_session_replay::from_prove::Outcome;

// Whether a duty is proved and may serve those of a clause, or of none.
pub(crate) fn may_be_lemma(replayed: &Replayed, clause: Option<u32>) -> bool
    ensures { result ≡ may_be_lemma clause replayed.now }
{
    is_proved(&replayed.outcome) && may_serve(replayed.claim.clause, clause)
}

// Whether an outcome is that all is proved.
pub(crate) fn is_proved(outcome: &Outcome) -> bool
    ensures { result ≡ is_proved (told_outcome outcome.now) }
{
    match outcome {
        Outcome::Proved => true,
        Outcome::Suspended { .. } | Outcome::Refused { .. } => false,
    }
}

// Whether a duty of a clause, or of none, may serve those of another.
fn may_serve(own: Option<u32>, other: Option<u32>) -> bool
    ensures { result ≡ may_serve own other }
{
    match (own, other) {
        (None, _) => true,
        (Some(_), None) => false,
        (Some(number), Some(second)) => number == second,
    }
}
