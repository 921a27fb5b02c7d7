ghost use Rattle.std.specs.Prelude.{◌≡◌, ◌≤◌, ◌+◌, ◌++◌, [], All, IfOk, List, OnOk, Result, length, map, take};
ghost use Rattle.larch_prove.specs.Prepared.{CanReplay, duty_of};
ghost use Rattle.larch_prove.specs.State.{IsStateOf};
ghost use Rattle.larch_prove_meaning.specs.Levels.{Proof};
ghost use Rattle.larch_prove_meaning.specs.Replays.{Refusal, begun_with};
ghost use Rattle.larch_prove_meaning.specs.Scripts.{commands_of};
ghost use Rattle.larch_script_commands.specs.Worded.{WordedCommand};
ghost use Rattle.larch_script_commands.specs.declared.command.CommandKind.{CommandKind as is_command};
ghost use Rattle.larch_session_trail.specs.Trail.{IsSomeTrail, IsTrailOf, behind, later_in};
ghost use Rattle.larch_term.specs.declared.statement.Statement.{Statement as is_statement};

use crate::carrying::push_state;
use larch_base::{Memory, Steps};
use larch_prove::{ProofDuty, ProofState};
use larch_script_commands::RawCommand;
use std::alloc::Global;
use std::rc::Rc;
use std::sync::ledger::Ledger;

/// The states of a block: the one behind its opening, and the one behind each command, up to the last one or to one
/// that is refused. Trails share the states of their common front.
pub struct Trail {
    pub(crate) first: Rc<ProofState>,
    pub(crate) later: Vec<Rc<ProofState>>,
}

// By a call, so that a proof takes one apart in one place alone.
impl Drop for Trail {
    fn drop(self) {
        let Trail {
            first: _first,
            later: _later,
        } = self;
    }
}

impl Trail {
    /// The state of a duty behind a preamble and its opening. It counts as one step, also where memory runs out.
    pub fn begin<L: Ledger>(
        alloc: Global,
        duty: &ProofDuty<'_>,
        preamble: &[RawCommand],
        limit: u32,
        steps: &mut Steps<L>,
    ) -> Result<Trail, Memory>
        requires replays { CanReplay duty.now }
        requires worded { All WordedCommand preamble.now }
        ensures begun { IfOk result (IsTrailOf duty.now.statement.now
            (begun_with (duty_of duty.now) limit (commands_of preamble.now)) []) }
        ensures some { IfOk result IsSomeTrail }
        ensures none { IfOk result (λ trail. length (later_in trail) ≡ 0) }
        ensures ticks { steps.new ≡ steps.old + 1 }
    {
        let state = ProofState::begin(alloc, duty, preamble, limit, steps)?;
        let first = Rc::new(alloc, state)?;
        let later = Vec::new(alloc);
        Ok(Trail { first, later })
    }

    /// How many commands were carried out. It takes no memory.
    pub fn len(&self) -> usize
        ensures { result ≡ length (later_in self.now) }
    {
        self.later.len()
    }

    /// The last state. It takes no memory.
    pub fn last(&self) -> &ProofState
        ensures { (s : is_statement) (answer : Result Proof Refusal) (commands : List is_command)
            → IsTrailOf s answer commands self.now → IsStateOf s result.now (behind answer commands) }
    {
        match self.later.last() {
            Some(state) => state.as_ref(),
            None => self.first.as_ref(),
        }
    }

    /// The states up to so many commands, as both trails then share them.
    pub fn front(&self, commands: usize) -> Result<Trail, Memory>
        ensures { IfOk result (λ trail. (s : is_statement) (answer : Result Proof Refusal) (block : List is_command)
            → IsTrailOf s answer block self.now → IsTrailOf s answer (take commands block) trail) }
    {
        let first = self.first.clone()?;
        let most = self.later.len().min(commands);
        let later = shares(*self.later.allocator(), &self.later[..most])?;
        Ok(Trail { first, later })
    }

    /// Carries commands out behind the last state, in order, until one is refused; each is one step. Trails that share
    /// earlier states keep them as they are.
    pub fn go_on<L: Ledger>(
        &mut self,
        alloc: Global,
        commands: &[RawCommand],
        steps: &mut Steps<L>,
    ) -> Result<(), Memory>
        requires some { IsSomeTrail self.old }
        requires worded { All WordedCommand commands.now }
        ensures states { OnOk result ((s : is_statement) (answer : Result Proof Refusal) (block : List is_command)
            → IsTrailOf s answer block self.old → IsTrailOf s answer (block ++ commands_of commands.now) self.new) }
        ensures taken { OnOk result (steps.new + length (later_in self.old) ≡ steps.old + length (later_in self.new)) }
        ensures least { steps.old ≤ steps.new }
        ensures most { steps.new ≤ steps.old + length commands.now }
    {
        for command in commands {
            push_state(alloc, self, command, steps)?;
        }
        Ok(())
    }
}

// The same states once more, shared.
fn shares(alloc: Global, states: &[Rc<ProofState>]) -> Result<Vec<Rc<ProofState>>, Memory>
    ensures { IfOk result (λ shared. map (λ state. state.value) shared.items
        ≡ map (λ state. state.value) states.now) }
{
    let mut shared = Vec::with_capacity(alloc, states.len())?;
    for state in states {
        let state = state.clone()?;
        shared.push(state)?;
    }
    Ok(shared)
}
