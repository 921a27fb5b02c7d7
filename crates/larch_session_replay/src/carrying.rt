ghost use Rattle.std.specs.Prelude.{◌≡◌, ◌≤◌, ◌+◌, All, IfOk, OnOk, Result, length};
ghost use Rattle.larch_prove.specs.State.{IsStateOf, told_outcome};
ghost use Rattle.larch_prove_meaning.specs.Levels.{Proof};
ghost use Rattle.larch_prove_meaning.specs.Replays.{Refusal, all_stepped};
ghost use Rattle.larch_prove_meaning.specs.Scripts.{commands_of};
ghost use Rattle.larch_script_commands.specs.Worded.{WordedCommand};
ghost use Rattle.larch_session_replay.specs.Carrying.{IsSomeState, is_refusal, is_refused};
ghost use Rattle.larch_term.specs.declared.statement.Statement.{Statement as is_statement};
ghost use Rattle.larch_base_meaning.specs.Steps.{after};

use larch_base::{Memory, Steps};
use larch_prove::{Outcome, ProofState};
use larch_script_commands::RawCommand;
use std::sync::ledger::Ledger;

// Carries the commands of a block out, in order, until one is refused. It answers how many steps the block took, its
// opening among them.
pub(crate) fn carry_out<L: Ledger>(
    state: &mut ProofState,
    commands: &[RawCommand],
    steps: &mut Steps<L>,
) -> Result<u64, Memory>
    requires state { IsSomeState state.old }
    requires worded { All WordedCommand commands.now }
    ensures state { OnOk result ((s : is_statement) (answer : Result Proof Refusal) → IsStateOf s state.old answer
        → IsStateOf s state.new (after answer (all_stepped (commands_of commands.now)))) }
    ensures taken { IfOk result (λ taken. 1 + steps.new ≡ steps.old + taken) }
    ensures least { steps.old ≤ steps.new }
    ensures most { steps.new ≤ steps.old + length commands.now }
{
    let mut taken: u64 = 1;
    for command in commands {
        let refused = is_refused(state)?;
        if refused {
            return Ok(taken);
        }
        state.step(command, steps)?;
        taken += 1;
    }
    Ok(taken)
}

// Whether a state is refused.
fn is_refused(state: &ProofState) -> Result<bool, Memory>
    ensures { IfOk result (λ refused. (s : is_statement) (answer : Result Proof Refusal)
        → IsStateOf s state.now answer → refused ≡ is_refused answer) }
{
    let outcome = state.outcome()?;
    Ok(is_refusal(&outcome))
}

// Whether an outcome is a refusal.
fn is_refusal(outcome: &Outcome) -> bool
    ensures { result ≡ is_refusal (told_outcome outcome.now) }
{
    match outcome {
        Outcome::Proved | Outcome::Suspended { .. } => false,
        Outcome::Refused { .. } => true,
    }
}
