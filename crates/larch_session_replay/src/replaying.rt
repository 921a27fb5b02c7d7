ghost use Rattle.std.specs.Prelude.{◌≡◌, ◌≤◌, ◌+◌, [], IfOk, map, sum_by};
ghost use Rattle.larch_prove_meaning.specs.Reports.{all_answered};
ghost use Rattle.larch_script_commands.specs.Worded.{WordedScript};
ghost use Rattle.larch_session_sources.specs.SessionLawClaims.{AreClaims};
ghost use Rattle.larch_session_blocks.specs.SessionMeaningTraits.{script_duty};
ghost use Rattle.larch_session_replay.specs.Replayed.{AreReplays, answer_of};
ghost use Rattle.larch_session_sources.specs.Steps.{script_steps};

use crate::duty::replay_duty;
use crate::replayed::Replays;
use larch_base::{Memory, Sequence, Steps};
use larch_script_commands::Script;
use larch_session_blocks::from_duties::Claims;
use std::alloc::Global;
use std::sync::ledger::Ledger;

/// Replays the duties of a trait by a script, in order, with a rewriting limit. A duty that is proved is a lemma of
/// later ones: of all, or of those of its own clause. The opening of a duty is one step, and each command of its block
/// that is carried out one more, also where memory runs out.
///
/// Each block is gone through once. The theory of a duty is borrowed, and what its lemmas state is copied.
pub fn replay_duties<L: Ledger>(
    alloc: Global,
    claims: Claims,
    script: &Script,
    limit: u32,
    steps: &mut Steps<L>,
) -> Result<Replays, Memory>
    requires claims { AreClaims (map script_duty claims) }
    requires worded { WordedScript script.now }
    ensures answers { IfOk result (λ replays. map answer_of replays
        ≡ all_answered limit script.now [] 1 (map script_duty claims)) }
    ensures replays { IfOk result (AreReplays limit script.now []) }
    ensures taken { IfOk result (λ replays. steps.new ≡ steps.old + sum_by (λ r. r.steps) replays) }
    ensures least { steps.old ≤ steps.new }
    ensures most { steps.new ≤ steps.old + script_steps script.now (map script_duty claims) }
{
    let mut replays = Sequence::new(alloc);
    for claim in claims.into_vec() {
        let replayed = replay_duty(alloc, claim, replays.as_slice(), script, limit, steps)?;
        replays.push(replayed)?;
    }
    Ok(replays)
}
