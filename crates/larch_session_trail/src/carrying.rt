ghost use Rattle.std.specs.Prelude.{◌≡◌, ◌≤◌, ◌+◌, ◌++◌, ◌∷◌, [], IfOk, List, Ok, OnOk, Result, length};
ghost use Rattle.larch_prove.specs.State.{IsGoing, IsStateOf, told_outcome};
ghost use Rattle.larch_prove_meaning.specs.Levels.{Proof};
ghost use Rattle.larch_prove_meaning.specs.Replays.{Refusal, step_command};
ghost use Rattle.larch_script_commands.specs.Worded.{WordedCommand};
ghost use Rattle.larch_script_commands.specs.declared.command.CommandKind.{CommandKind as is_command};
ghost use Rattle.larch_session_trail.specs.Trail.{IsSomeTrail, IsTrailOf, is_refusal, is_refused, later_in};
ghost use Rattle.larch_term.specs.declared.statement.Statement.{Statement as is_statement};

use crate::trail::Trail;
use larch_base::{Memory, Steps};
use larch_prove::{Outcome, ProofState};
use larch_script_commands::RawCommand;
use std::alloc::Global;
use std::rc::Rc;
use std::sync::ledger::Ledger;

// Carries a command out behind the last state, unless that is refused.
pub(crate) fn push_state<L: Ledger>(
    alloc: Global,
    trail: &mut Trail,
    command: &RawCommand,
    steps: &mut Steps<L>,
) -> Result<(), Memory>
    requires some { IsSomeTrail trail.old }
    requires worded { WordedCommand command.now }
    ensures states { OnOk result ((s : is_statement) (answer : Result Proof Refusal) (block : List is_command)
        → IsTrailOf s answer block trail.old → IsTrailOf s answer (block ++ command.now.kind ∷ []) trail.new) }
    ensures taken { OnOk result (steps.new + length (later_in trail.old) ≡ steps.old + length (later_in trail.new)) }
    ensures least { steps.old ≤ steps.new }
    ensures most { steps.new ≤ steps.old + 1 }
{
    let refused = is_refused(trail.last())?;
    if refused {
        return Ok(());
    }
    let state = next_state(alloc, trail.last(), command, steps)?;
    trail.later.push(state)?;
    Ok(())
}

// The state behind a command, which is one step. The state before stays.
fn next_state<L: Ledger>(
    alloc: Global,
    before: &ProofState,
    command: &RawCommand,
    steps: &mut Steps<L>,
) -> Result<Rc<ProofState>, Memory>
    requires going { IsGoing before.now }
    requires worded { WordedCommand command.now }
    ensures stepped { IfOk result (λ state. (s : is_statement) (p : Proof) → IsStateOf s before.now (Ok p)
        → IsStateOf s state.value (step_command command.now.kind p)) }
    ensures ticks { OnOk result (steps.new ≡ steps.old + 1) }
    ensures least { steps.old ≤ steps.new }
    ensures most { steps.new ≤ steps.old + 1 }
{
    let mut state = before.copy()?;
    state.step(command, steps)?;
    let state = Rc::new(alloc, state)?;
    Ok(state)
}

// Whether a state is refused.
fn is_refused(state: &ProofState) -> Result<bool, Memory>
    ensures { IfOk result (λ refused. (s : is_statement) (answer : Result Proof Refusal)
        → IsStateOf s state.now answer → refused ≡ is_refused answer) }
{
    let outcome = state.outcome()?;
    Ok(is_refusal(&outcome))
}

// Whether an outcome is a refusal.
fn is_refusal(outcome: &Outcome) -> bool
    ensures { result ≡ is_refusal (told_outcome outcome.now) }
{
    match outcome {
        Outcome::Proved | Outcome::Suspended { .. } => false,
        Outcome::Refused { .. } => true,
    }
}
