ghost use Rattle.std.specs.Prelude.{◌≡◌, ◌≤◌, ◌+◌, ◌++◌, [], IfOk, OnOk, map, sum_by};
ghost use Rattle.larch_prove_meaning.specs.Redo.{redo, trait_replayed};
ghost use Rattle.larch_prove_meaning.specs.Reports.{all_answered};
ghost use Rattle.larch_script_commands.specs.Worded.{WordedScript};
ghost use Rattle.larch_session_blocks.specs.SessionMeaningTraits.{script_duty};
ghost use Rattle.larch_session_kept.specs.Kept.{limit_in, records_in};
ghost use Rattle.larch_session_replay.specs.Replayed.{AreReplays, answer_of};
ghost use Rattle.larch_session_sources.specs.SessionLawClaims.{AreClaims};

use crate::base::Base;
use crate::duty::replay_duty;
use crate::kept::Replaying;
use larch_base::{Memory, Sequence, Steps};
use larch_session_replay::Replays;
use larch_session_replay::from_duties::Claims;
use std::alloc::Global;
use std::sync::ledger::Ledger;

/// Replays the duties of a trait in order, from what was kept of the report before, and puts what is kept of them now
/// behind the records of a base. They come to what they would without it.
///
/// A duty that begins as it did goes on behind the longest common front of its block and the one before, commands being
/// compared without lines and positions; any other is opened, which is one step. Each command that is carried out is
/// one step more, also where memory runs out.
pub fn replay_duties<L: Ledger>(
    alloc: Global,
    replaying: &Replaying<'_>,
    claims: Claims,
    base: &mut Base,
    steps: &mut Steps<L>,
) -> Result<Replays, Memory>
    requires claims { AreClaims (map script_duty claims) }
    requires worded { WordedScript replaying.now.script.now.value }
    requires limit { limit_in base.old ≡ limit_in replaying.now.before.now }
    ensures answers { IfOk result (λ replays. map answer_of replays
        ≡ all_answered (limit_in replaying.now.before.now) replaying.now.script.now.value [] 1
        (map script_duty claims)) }
    ensures replays { IfOk result (AreReplays (limit_in replaying.now.before.now) replaying.now.script.now.value []) }
    ensures limit { limit_in base.new ≡ limit_in base.old }
    ensures base { OnOk result (records_in base.new ≡ records_in base.old ++ trait_replayed
        (limit_in replaying.now.before.now) replaying.now.stem.now replaying.now.script.now.value
        (map script_duty claims)) }
    ensures taken { IfOk result (λ replays. steps.new ≡ steps.old + sum_by (λ r. r.steps) replays) }
    ensures least { steps.old ≤ steps.new }
    ensures most { steps.new ≤ steps.old + redo (records_in replaying.now.before.now)
        (trait_replayed (limit_in replaying.now.before.now) replaying.now.stem.now replaying.now.script.now.value
        (map script_duty claims)) }
{
    let mut replays = Sequence::new(alloc);
    for claim in claims.into_vec() {
        let (replayed, record) = replay_duty(alloc, replaying, claim, replays.as_slice(), steps)?;
        base.push(record)?;
        replays.push(replayed)?;
    }
    Ok(replays)
}
