ghost use Rattle.std.specs.Prelude.{◌≡◌, ◌<◌, ◌≤◌, ◌+◌, IfOk, length, map};
ghost use Rattle.larch_base.specs.declared.limits.TheConstants.{MAX_DUTIES};
ghost use Rattle.larch_prove.specs.State.{IsStateOf};
ghost use Rattle.larch_script_commands.specs.Worded.{WordedScript};
ghost use Rattle.larch_session_blocks.specs.SessionMeaningTraits.{script_duty};
ghost use Rattle.larch_session_replay.specs.Replayed.{CanFollow, IsReplay, answer_of, come_to};
ghost use Rattle.larch_session_sources.specs.Steps.{block_steps};

use crate::carrying::carry_out;
use crate::lemmas::lemmas_for;
use crate::replayed::Replayed;
use larch_base::{Memory, Steps};
use larch_prove::{ProofDuty, ProofState};
use larch_script_commands::Script;
use larch_session_blocks::commands_for;
use larch_session_blocks::from_duties::Claim;
use std::alloc::Global;
use std::sync::ledger::Ledger;

// Replays a duty behind these earlier ones.
pub(crate) fn replay_duty<L: Ledger>(
    alloc: Global,
    claim: Claim,
    earlier: &[Replayed],
    script: &Script,
    limit: u32,
    steps: &mut Steps<L>,
) -> Result<Replayed, Memory>
    requires few { length earlier.now < MAX_DUTIES }
    requires follows { CanFollow (map answer_of earlier.now) (script_duty claim) }
    requires worded { WordedScript script.now }
    ensures claim { IfOk result (λ replayed. replayed.claim ≡ claim) }
    ensures number { IfOk result (λ replayed. replayed.number ≡ 1 + length earlier.now) }
    ensures replay { IfOk result (IsReplay limit script.now (map answer_of earlier.now)) }
    ensures taken { IfOk result (λ replayed. steps.new ≡ steps.old + replayed.steps) }
    ensures least { steps.old ≤ steps.new }
    ensures most { steps.new ≤ steps.old + block_steps script.now claim.label }
{
    let number = earlier.len() as u32 + 1;
    let (state, taken) = replay_claim(alloc, &claim, earlier, script, limit, steps)?;
    let outcome = state.outcome()?;
    Ok(Replayed {
        number,
        claim,
        outcome,
        state,
        steps: taken,
    })
}

// The state behind the last command of a duty's block that is carried out, and how many steps led to it.
fn replay_claim<L: Ledger>(
    alloc: Global,
    claim: &Claim,
    earlier: &[Replayed],
    script: &Script,
    limit: u32,
    steps: &mut Steps<L>,
) -> Result<(ProofState, u64), Memory>
    requires follows { CanFollow (map answer_of earlier.now) (script_duty claim.now) }
    requires worded { WordedScript script.now }
    ensures state { IfOk result (λ reached. IsStateOf claim.now.statement reached.0
        (come_to limit script.now (map answer_of earlier.now) (script_duty claim.now))) }
    ensures taken { IfOk result (λ reached. steps.new ≡ steps.old + reached.1) }
    ensures least { steps.old ≤ steps.new }
    ensures most { steps.new ≤ steps.old + block_steps script.now claim.now.label }
{
    let lemmas = lemmas_for(alloc, claim, earlier)?;
    let duty = ProofDuty {
        theory: &*claim.theory,
        statement: &claim.statement,
        lemmas: lemmas.as_slice(),
    };
    let mut state = ProofState::begin(alloc, &duty, script.preamble.as_slice(), limit, steps)?;
    let taken = carry_out(&mut state, commands_for(script, claim.label), steps)?;
    Ok((state, taken))
}
