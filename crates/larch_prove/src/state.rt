ghost use Rattle.std.specs.Prelude.{◌≡◌, ◌+◌, true, IfOk, OnErr, OnOk, Ok, Result};
ghost use Rattle.larch_derive.specs.Finished.{IsFinished};
ghost use Rattle.larch_prove.specs.State.{IsGoing, IsProvedState, IsStateOf, told_outcome};
ghost use Rattle.larch_prove_resuming.specs.ProveInvariantHolding.{theory_for};
ghost use Rattle.larch_prove_meaning.specs.Levels.{Proof};
ghost use Rattle.larch_prove_meaning.specs.Replays.{Refusal, outcome_of, step_command};
ghost use Rattle.larch_script_commands.specs.Worded.{WordedKind};
ghost use Rattle.larch_term.specs.declared.statement.Statement.{Statement as is_statement};

use crate::going::Going;
use crate::outcome::{Outcome, Place};
use larch_base::{Code, Memory, Steps};
use larch_certificate::Certificate;
use larch_prove_beginning::from_prove_settings::CommandRefusal;
use larch_script_commands::RawCommand;
use std::sync::ledger::Ledger;

// What has become of a block: it goes on, or is refused.
#[derive(Drop)]
pub(crate) enum Stage {
    Going(Going),
    Refused(Place, Code),
}

/// A proof as it is behind its opening or a command, with the certificate so far; or that it is refused.
pub struct ProofState {
    pub(crate) stage: Stage,
}

// By a call, so that a proof takes one apart in one place alone.
impl Drop for ProofState {
    fn drop(self) {
        let ProofState { stage: _stage } = self;
    }
}

impl ProofState {
    /// The next command of the block. The state may not be one that is refused; out of memory it stays as it was.
    pub fn step<L: Ledger>(
        &mut self,
        command: &RawCommand,
        steps: &mut Steps<L>,
    ) -> Result<(), Memory>
        requires going { IsGoing self.old }
        requires worded { WordedKind command.now.kind }
        ensures stepped { OnOk result ((s : is_statement) (p : Proof) → IsStateOf s self.old (Ok p)
            → IsStateOf s self.new (step_command command.now.kind p)) }
        ensures err { OnErr result (self.new ≡ self.old) }
        ensures ticks { steps.new ≡ steps.old + 1 }
    {
        steps.tick();
        let Stage::Going(going) = &mut self.stage else {
            unreachable!()
        };
        let place = Place::Command(going.next_number());
        match going.step(&command.kind) {
            Ok(()) => Ok(()),
            Err(CommandRefusal::Memory) => Err(Memory),
            Err(CommandRefusal::Wrong(code)) => {
                self.stage = Stage::Refused(place, code);
                Ok(())
            }
        }
    }

    /// What the block has come to.
    pub fn outcome(&self) -> Result<Outcome, Memory>
        ensures { IfOk result (λ outcome. (s : is_statement) (answer : Result Proof Refusal)
            → IsStateOf s self.now answer → told_outcome outcome ≡ outcome_of answer) }
    {
        match &self.stage {
            Stage::Going(going) => going.outcome(),
            Stage::Refused(place, code) => Ok(Outcome::Refused {
                place: *place,
                code: *code,
            }),
        }
    }

    /// The same state once more. What is later done to one isn't done to the other.
    pub fn copy(&self) -> Result<ProofState, Memory>
        ensures { IfOk result (λ state. (s : is_statement) (answer : Result Proof Refusal)
            → IsStateOf s self.now answer → IsStateOf s state answer) }
    {
        match &self.stage {
            Stage::Going(going) => {
                let copied = going.copy()?;
                Ok(ProofState {
                    stage: Stage::Going(copied),
                })
            }
            Stage::Refused(place, code) => Ok(ProofState {
                stage: Stage::Refused(*place, *code),
            }),
        }
    }

    /// The certificate, once all is proved.
    pub fn certificate(&self) -> Result<Certificate, Memory>
        requires { IsProvedState self.now }
        ensures { IfOk result (λ lines. (s : is_statement) (p : Proof) → IsStateOf s self.now (Ok p)
            → p.is_proved ≡ true → IsFinished (theory_for p) s lines) }
    {
        match &self.stage {
            Stage::Going(going) => going.work.draft.builder.certificate(),
            Stage::Refused(_, _) => unreachable!(),
        }
    }
}
