ghost use Rattle.std.specs.Prelude.{◌≡◌, ◌<◌, ◌≤◌, ◌+◌, IfOk, length, map};
ghost use Rattle.larch_base.specs.declared.limits.TheConstants.{MAX_DUTIES};
ghost use Rattle.larch_script_commands.specs.Worded.{WordedScript};
ghost use Rattle.larch_session_blocks.specs.SessionMeaningTraits.{script_duty};
ghost use Rattle.larch_session_kept.specs.Kept.{IsKept, limit_in, redone_behind, replayed_of, task_behind};
ghost use Rattle.larch_session_replay.specs.Replayed.{CanFollow, IsReplay, answer_of};

use crate::kept::{Kept, Replaying, keep};
use crate::lemmas::lemmas_for;
use crate::trails::trail_for;
use larch_base::{Memory, Steps};
use larch_session_blocks::from_duties::Claim;
use larch_session_replay::Replayed;
use std::alloc::Global;
use std::sync::ledger::Ledger;

// Replays a duty behind these earlier ones, from what was kept of it: what it comes to, and what is kept of it now.
pub(crate) fn replay_duty<L: Ledger>(
    alloc: Global,
    replaying: &Replaying<'_>,
    claim: Claim,
    earlier: &[Replayed],
    steps: &mut Steps<L>,
) -> Result<(Replayed, Kept), Memory>
    requires few { length earlier.now < MAX_DUTIES }
    requires follows { CanFollow (map answer_of earlier.now) (script_duty claim) }
    requires worded { WordedScript replaying.now.script.now.value }
    ensures claim { IfOk result (λ made. made.0.claim ≡ claim) }
    ensures number { IfOk result (λ made. made.0.number ≡ 1 + length earlier.now) }
    ensures replay { IfOk result (λ made. IsReplay (limit_in replaying.now.before.now) replaying.now.script.now.value
        (map answer_of earlier.now) made.0) }
    ensures replayed { IfOk result (λ made. replayed_of made.1 ≡ task_behind replaying.now.stem.now
        replaying.now.script.now.value (map answer_of earlier.now) (script_duty claim)) }
    ensures kept { IfOk result (λ made. IsKept (limit_in replaying.now.before.now) made.1) }
    ensures taken { IfOk result (λ made. steps.new ≡ steps.old + made.0.steps) }
    ensures least { steps.old ≤ steps.new }
    ensures most { steps.new ≤ steps.old + redone_behind replaying.now.before.now (task_behind
        replaying.now.stem.now replaying.now.script.now.value (map answer_of earlier.now) (script_duty claim)) }
{
    let (kept, taken) = keep_replayed(alloc, replaying, &claim, earlier, steps)?;
    let state = kept.trail.last().copy()?;
    let outcome = state.outcome()?;
    let replayed = Replayed {
        number: earlier.len() as u32 + 1,
        claim,
        outcome,
        state,
        steps: taken,
    };
    Ok((replayed, kept))
}

// What is kept of a duty that is replayed behind these earlier ones, and how many steps that took.
fn keep_replayed<L: Ledger>(
    alloc: Global,
    replaying: &Replaying<'_>,
    claim: &Claim,
    earlier: &[Replayed],
    steps: &mut Steps<L>,
) -> Result<(Kept, u64), Memory>
    requires follows { CanFollow (map answer_of earlier.now) (script_duty claim.now) }
    requires worded { WordedScript replaying.now.script.now.value }
    ensures replayed { IfOk result (λ made. replayed_of made.0 ≡ task_behind replaying.now.stem.now
        replaying.now.script.now.value (map answer_of earlier.now) (script_duty claim.now)) }
    ensures kept { IfOk result (λ made. IsKept (limit_in replaying.now.before.now) made.0) }
    ensures taken { IfOk result (λ made. steps.new ≡ steps.old + made.1) }
    ensures least { steps.old ≤ steps.new }
    ensures most { steps.new ≤ steps.old + redone_behind replaying.now.before.now (task_behind
        replaying.now.stem.now replaying.now.script.now.value (map answer_of earlier.now) (script_duty claim.now)) }
{
    let lemmas = lemmas_for(alloc, claim, earlier)?;
    let (trail, taken) = trail_for(alloc, replaying, claim, lemmas.as_slice(), steps)?;
    let kept = keep(alloc, replaying, claim, lemmas, trail)?;
    Ok((kept, taken))
}
