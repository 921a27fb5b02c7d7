ghost use Rattle.std.specs.Prelude.{◌≡◌, ◌≤◌, ◌+◌, All, IfOk, Result};
ghost use Rattle.larch_prove_meaning.specs.Levels.{Proof};
ghost use Rattle.larch_prove_meaning.specs.Redo.{behind_common};
ghost use Rattle.larch_prove_meaning.specs.Replays.{Refusal};
ghost use Rattle.larch_prove_meaning.specs.Scripts.{commands_of};
ghost use Rattle.larch_script_commands.specs.Worded.{WordedCommand, WordedScript};
ghost use Rattle.larch_session_blocks.specs.SessionMeaningTraits.{script_duty};
ghost use Rattle.larch_session_kept.specs.Kept.{CanBegin, IsTrailFor, limit_in, redone_behind, replayed_of, task};
ghost use Rattle.larch_session_sources.specs.Steps.{block_steps};
ghost use Rattle.larch_session_trail.specs.ProveOpeningStating.{duties_of};
ghost use Rattle.larch_session_trail.specs.Trail.{IsSomeTrail, IsTrailOf};
ghost use Rattle.larch_term.specs.declared.statement.Statement.{Statement as is_statement};

use crate::alike::find_help;
use crate::kept::{Kept, Replaying};
use larch_base::{Memory, Steps};
use larch_script_commands::RawCommand;
use larch_session_blocks::commands_for;
use larch_session_blocks::from_duties::Claim;
use larch_session_trail::from_prove::{Lemma, ProofDuty};
use larch_session_trail::{Trail, common_front};
use std::alloc::Global;
use std::sync::ledger::Ledger;

// The states of a duty's block, and how many steps led to them: those behind the common front of this block and the one
// before, where the duty begins as it did.
pub(crate) fn trail_for<L: Ledger>(
    alloc: Global,
    replaying: &Replaying<'_>,
    claim: &Claim,
    lemmas: &[Lemma],
    steps: &mut Steps<L>,
) -> Result<(Trail, u64), Memory>
    requires begins { CanBegin (script_duty claim.now) (duties_of lemmas.now) }
    requires worded { WordedScript replaying.now.script.now.value }
    ensures trail { IfOk result (λ made. IsTrailFor (limit_in replaying.now.before.now)
        (task replaying.now.stem.now replaying.now.script.now.value claim.now (duties_of lemmas.now)) made.0) }
    ensures taken { IfOk result (λ made. steps.new ≡ steps.old + made.1) }
    ensures least { steps.old ≤ steps.new }
    ensures most { steps.new ≤ steps.old + redone_behind replaying.now.before.now
        (task replaying.now.stem.now replaying.now.script.now.value claim.now (duties_of lemmas.now)) }
{
    match find_help(replaying, claim, lemmas) {
        Some(kept) => {
            let commands = commands_for(replaying.script, claim.label);
            resume(alloc, kept, commands, steps)
        }
        None => begin(alloc, replaying, claim, lemmas, steps),
    }
}

// Goes on from what was kept of a duty, behind the common front of both blocks.
fn resume<L: Ledger>(
    alloc: Global,
    kept: &Kept,
    commands: &[RawCommand],
    steps: &mut Steps<L>,
) -> Result<(Trail, u64), Memory>
    requires kept { IsSomeTrail kept.now.trail }
    requires worded { All WordedCommand commands.now }
    ensures trail { IfOk result (λ made. (s : is_statement) (answer : Result Proof Refusal)
        → IsTrailOf s answer (replayed_of kept.now).block kept.now.trail
        → IsTrailOf s answer (commands_of commands.now) made.0) }
    ensures taken { IfOk result (λ made. steps.new ≡ steps.old + made.1) }
    ensures least { steps.old ≤ steps.new }
    ensures most { steps.new ≤ steps.old + behind_common (replayed_of kept.now).block (commands_of commands.now) }
{
    let front = common_front(kept.commands(), commands);
    let mut trail = kept.trail.front(front)?;
    let before = trail.len();
    trail.go_on(alloc, &commands[front..], steps)?;
    let taken = (trail.len() - before) as u64;
    Ok((trail, taken))
}

// Replays the block of a duty from its opening on.
fn begin<L: Ledger>(
    alloc: Global,
    replaying: &Replaying<'_>,
    claim: &Claim,
    lemmas: &[Lemma],
    steps: &mut Steps<L>,
) -> Result<(Trail, u64), Memory>
    requires begins { CanBegin (script_duty claim.now) (duties_of lemmas.now) }
    requires worded { WordedScript replaying.now.script.now.value }
    ensures trail { IfOk result (λ made. IsTrailFor (limit_in replaying.now.before.now)
        (task replaying.now.stem.now replaying.now.script.now.value claim.now (duties_of lemmas.now)) made.0) }
    ensures taken { IfOk result (λ made. steps.new ≡ steps.old + made.1) }
    ensures least { steps.old ≤ steps.new }
    ensures most { steps.new ≤ steps.old + block_steps replaying.now.script.now.value claim.now.label }
{
    let duty = ProofDuty {
        theory: &*claim.theory,
        statement: &claim.statement,
        lemmas,
    };
    let preamble = replaying.script.preamble.as_slice();
    let mut trail = Trail::begin(alloc, &duty, preamble, replaying.before.limit(), steps)?;
    let commands = commands_for(replaying.script, claim.label);
    trail.go_on(alloc, commands, steps)?;
    let taken = trail.len() as u64 + 1;
    Ok((trail, taken))
}
