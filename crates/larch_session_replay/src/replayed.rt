ghost use Rattle.std.specs.Prelude.{◌≡◌, ◌-◌, ◌^◌, min, sum_by};

use larch_base::Sequence;
use larch_prove::{Outcome, ProofState};
use larch_session_blocks::from_duties::Claim;

/// A duty that was replayed: its number among those of its trait, from 1, and what is claimed; what its block has come
/// to, and the state behind the last command that was carried out. Where it is proved, that has its certificate, over
/// the theory with the lemmas.
pub struct Replayed {
    pub number: u32,
    pub claim: Claim,
    pub outcome: Outcome,
    pub state: ProofState,
    /// How many steps that took: one for its opening, and one for each command that was carried out.
    pub steps: u64,
}

/// Duties of one trait that were replayed, in order.
pub type Replays = Sequence<Replayed>;

// By a call, so that a proof takes one apart in one place alone.
impl Drop for Replayed {
    fn drop(self) {
        let Replayed {
            number: _number,
            claim: _claim,
            outcome: _outcome,
            state: _state,
            steps: _steps,
        } = self;
    }
}

/// How many steps duties took, up to the last number.
pub fn steps_of(replays: &[Replayed]) -> u64
    ensures { result ≡ min (sum_by (λ r. r.steps) replays.now) (2 ^ 64 - 1) }
{
    let mut taken: u64 = 0;
    for replayed in replays {
        taken = taken.saturating_add(replayed.steps);
    }
    taken
}
