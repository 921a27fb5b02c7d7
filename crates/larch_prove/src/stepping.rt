ghost use Rattle.std.specs.Prelude.{◌≡◌, true, false, IfErr, Ok, OnErr, OnOk};
ghost use Rattle.larch_prove.specs.Kinds.{HasTurn, IsCommand, WorksOnProof};
ghost use Rattle.larch_prove.specs.State.{IsClaimed, IsGoingFor, IsSomeGoing, IsSomeWorks, MakesFor, StepsTo, Works};
ghost use Rattle.larch_prove_meaning.specs.Levels.{Proof};
ghost use Rattle.larch_prove_meaning.specs.Replays.{by_kind, step};
ghost use Rattle.larch_prove_meaning.specs.Steps.{carried_out};
ghost use Rattle.larch_prove_resuming.specs.ProveDraftProving.{IsProvable};
ghost use Rattle.larch_prove_beginning.specs.ProveSettingsTelling.{Tells};
ghost use Rattle.larch_prove_resuming.specs.ProveWorkWork.{IsSomeWork, Makes, MayWork};
ghost use Rattle.larch_script_commands.specs.declared.command.CommandKind.TheVariants.{BoxChecking, Qed};
ghost use Rattle.larch_script_commands.specs.Worded.{WordedKind};
ghost use Rattle.larch_term.specs.declared.statement.Statement.{Statement as is_statement};

use crate::going::Going;
use crate::marks::{check_boxes, take_mark};
use larch_base::Code;
use larch_base::limits::MAX_COMMANDS;
use larch_prove_beginning::from_prove_settings::CommandRefusal;
use larch_prove_facts::{instantiate, normalize, pair_facts};
use larch_prove_resuming::from_prove_work::{Claim, Work, prove};
use larch_prove_resuming::resume_by;
use larch_script_commands::CommandKind;
use std::alloc::Global;

impl Going {
    // The next command of the block. Where it is refused nothing changes.
    pub(crate) fn step(&mut self, kind: &CommandKind) -> Result<(), CommandRefusal>
        requires going { IsSomeGoing self.old }
        requires worded { WordedKind kind.now }
        ensures stepped { OnOk result ((s : is_statement) (p : Proof) → IsGoingFor s self.old p
            → StepsTo s self.new (step kind.now p)) }
        ensures refused { IfErr result (λ refusal. (s : is_statement) (p : Proof) → IsGoingFor s self.old p
            → Tells (step kind.now p) refusal) }
        ensures err { OnErr result (self.new ≡ self.old) }
    {
        match kind {
            CommandKind::Bad(code) => Err(CommandRefusal::Wrong(*code)),
            _ => self.count_step(kind),
        }
    }

    // The same of a line that is a command, which counts among those of the block.
    fn count_step(&mut self, kind: &CommandKind) -> Result<(), CommandRefusal>
        requires going { IsSomeGoing self.old }
        requires worded { WordedKind kind.now }
        requires command { IsCommand kind.now }
        ensures stepped { OnOk result ((s : is_statement) (p : Proof) → IsGoingFor s self.old p
            → StepsTo s self.new (step kind.now p)) }
        ensures refused { IfErr result (λ refusal. (s : is_statement) (p : Proof) → IsGoingFor s self.old p
            → Tells (step kind.now p) refusal) }
        ensures err { OnErr result (self.new ≡ self.old) }
    {
        if self.commands >= MAX_COMMANDS {
            return Err(CommandRefusal::Wrong(Code::Size));
        }
        let commands = self.commands + 1;
        self.step_by_kind(kind)?;
        self.commands = commands;
        Ok(())
    }

    // The same, without counting it: what comes first of marks, of the end of the proof and of the command's own codes.
    fn step_by_kind(&mut self, kind: &CommandKind) -> Result<(), CommandRefusal>
        requires claimed { IsClaimed self.old }
        requires works { IsSomeWorks self.old }
        requires worded { WordedKind kind.now }
        requires command { IsCommand kind.now }
        ensures made { OnOk result ((p : Proof) → Works self.old p → MakesFor self.new p (by_kind kind.now p)) }
        ensures refused { IfErr result (λ refusal. (p : Proof) → Works self.old p
            → Tells (by_kind kind.now p) refusal) }
        ensures rest { self.new ≡ record self.old { work = self.new.work } }
        ensures err { OnErr result (self.new ≡ self.old) }
    {
        match kind {
            CommandKind::Mark(is_proved) => take_mark(&mut self.work.draft, *is_proved),
            CommandKind::Qed => self.finish(),
            CommandKind::BoxChecking(on) => self.set_checking(*on),
            _ => self.take_turn(kind),
        }
    }

    // `qed`, which may stand behind the end.
    fn finish(&self) -> Result<(), CommandRefusal>
        ensures made { OnOk result ((p : Proof) → Works self.now p → by_kind Qed p ≡ Ok p) }
        ensures refused { IfErr result (λ refusal. (p : Proof) → Works self.now p → Tells (by_kind Qed p) refusal) }
    {
        if !self.work.draft.waiting.is_empty() {
            return Err(CommandRefusal::Wrong(Code::Mark));
        }
        if !self.work.draft.is_proved {
            return Err(CommandRefusal::Wrong(Code::Open));
        }
        Ok(())
    }

    // Boxes are checked from now on, or aren't.
    fn set_checking(&mut self, on: bool) -> Result<(), CommandRefusal>
        ensures made { OnOk result ((p : Proof) → Works self.old p
            → MakesFor self.new p (by_kind (BoxChecking on) p)) }
        ensures refused { IfErr result (λ refusal. (p : Proof) → Works self.old p
            → Tells (by_kind (BoxChecking on) p) refusal) }
        ensures rest { self.new ≡ record self.old { work = self.new.work } }
        ensures err { OnErr result (self.new ≡ self.old) }
    {
        if on {
            self.begin_checking()
        } else {
            self.end_checking()
        }
    }

    // Boxes are checked from now on: no mark may wait.
    fn begin_checking(&mut self) -> Result<(), CommandRefusal>
        ensures made { OnOk result ((p : Proof) → Works self.old p
            → MakesFor self.new p (by_kind (BoxChecking true) p)) }
        ensures refused { IfErr result (λ refusal. (p : Proof) → Works self.old p
            → Tells (by_kind (BoxChecking true) p) refusal) }
        ensures rest { self.new ≡ record self.old { work = self.new.work } }
        ensures err { OnErr result (self.new ≡ self.old) }
    {
        if !self.work.draft.waiting.is_empty() {
            return Err(CommandRefusal::Wrong(Code::Mark));
        }
        if self.work.draft.is_proved {
            return Err(CommandRefusal::Wrong(Code::Done));
        }
        check_boxes(&mut self.work.draft, true);
        Ok(())
    }

    // Boxes aren't checked from now on: that may be commanded where marks wait.
    fn end_checking(&mut self) -> Result<(), CommandRefusal>
        ensures made { OnOk result ((p : Proof) → Works self.old p
            → MakesFor self.new p (by_kind (BoxChecking false) p)) }
        ensures refused { IfErr result (λ refusal. (p : Proof) → Works self.old p
            → Tells (by_kind (BoxChecking false) p) refusal) }
        ensures rest { self.new ≡ record self.old { work = self.new.work } }
        ensures err { OnErr result (self.new ≡ self.old) }
    {
        if self.work.draft.is_proved {
            return Err(CommandRefusal::Wrong(Code::Done));
        }
        check_boxes(&mut self.work.draft, false);
        Ok(())
    }

    // Another command: no mark may wait, and the duty may not be proved yet.
    fn take_turn(&mut self, kind: &CommandKind) -> Result<(), CommandRefusal>
        requires claimed { IsClaimed self.old }
        requires works { IsSomeWorks self.old }
        requires worded { WordedKind kind.now }
        requires turn { HasTurn kind.now }
        ensures made { OnOk result ((p : Proof) → Works self.old p → MakesFor self.new p (by_kind kind.now p)) }
        ensures refused { IfErr result (λ refusal. (p : Proof) → Works self.old p
            → Tells (by_kind kind.now p) refusal) }
        ensures rest { self.new ≡ record self.old { work = self.new.work } }
        ensures err { OnErr result (self.new ≡ self.old) }
    {
        let waits = !self.work.draft.waiting.is_empty();
        if waits {
            return Err(CommandRefusal::Wrong(Code::Mark));
        }
        if self.work.draft.is_proved {
            return Err(CommandRefusal::Wrong(Code::Done));
        }
        self.carry_out(kind)
    }

    // A command whose turn it is.
    fn carry_out(&mut self, kind: &CommandKind) -> Result<(), CommandRefusal>
        requires claimed { IsClaimed self.old }
        requires works { IsSomeWorks self.old }
        requires undone { self.old.work.draft.is_proved ≡ false }
        requires worded { WordedKind kind.now }
        requires turn { HasTurn kind.now }
        ensures made { OnOk result ((p : Proof) → Works self.old p → MakesFor self.new p (carried_out kind.now p)) }
        ensures refused { IfErr result (λ refusal. (p : Proof) → Works self.old p
            → Tells (carried_out kind.now p) refusal) }
        ensures rest { self.new ≡ record self.old { work = self.new.work } }
        ensures err { OnErr result (self.new ≡ self.old) }
    {
        match kind {
            CommandKind::Declare(_, _)
            | CommandKind::Limit(_)
            | CommandKind::Height(_, _)
            | CommandKind::Status(_, _) => self.work.settings.change(self.alloc, kind),
            _ => self.carry_out_on_copy(kind),
        }
    }

    // A command that works on the proof itself: it works on a copy, which takes the proof's place at the end.
    fn carry_out_on_copy(&mut self, kind: &CommandKind) -> Result<(), CommandRefusal>
        requires claimed { IsClaimed self.old }
        requires works { IsSomeWorks self.old }
        requires undone { self.old.work.draft.is_proved ≡ false }
        requires worded { WordedKind kind.now }
        requires kind { WorksOnProof kind.now }
        ensures made { OnOk result ((p : Proof) → Works self.old p → MakesFor self.new p (carried_out kind.now p)) }
        ensures refused { IfErr result (λ refusal. (p : Proof) → Works self.old p
            → Tells (carried_out kind.now p) refusal) }
        ensures rest { self.new ≡ record self.old { work = self.new.work } }
        ensures err { OnErr result (self.new ≡ self.old) }
    {
        let mut work = self.work.copy(self.alloc)?;
        carry_out_on(self.alloc, &self.claim, &mut work, kind)?;
        self.work = work;
        Ok(())
    }
}

// The same on what may be spoiled where the command is refused.
fn carry_out_on(
    alloc: Global,
    claim: &Claim,
    work: &mut Work,
    kind: &CommandKind,
) -> Result<(), CommandRefusal>
    requires provable { IsProvable claim.now.theory claim.now.statement }
    requires works { IsSomeWork claim.now.theory claim.now.statement work.old }
    requires worded { WordedKind kind.now }
    requires kind { WorksOnProof kind.now }
    ensures made { OnOk result ((p : Proof) → MayWork claim.now.theory claim.now.statement work.old p
        → Makes claim.now.theory claim.now.statement work.new p (carried_out kind.now p)) }
    ensures refused { IfErr result (λ refusal. (p : Proof) → MayWork claim.now.theory claim.now.statement work.old p
        → Tells (carried_out kind.now p) refusal) }
{
    match kind {
        CommandKind::Prove(equation) => prove(alloc, claim, work, equation),
        CommandKind::Instantiate(instances, fact) => {
            instantiate(alloc, claim, work, instances.as_slice(), fact)
        }
        CommandKind::CriticalPairs(first, second) => pair_facts(alloc, claim, work, first, second),
        CommandKind::Normalize(fact) => normalize(alloc, claim, work, fact),
        CommandKind::Cases(_)
        | CommandKind::Implication
        | CommandKind::Conjunction
        | CommandKind::Contradiction
        | CommandKind::Induction(_)
        | CommandKind::Partition => resume_by(alloc, claim, work, kind),
        _ => unreachable!(),
    }
}
