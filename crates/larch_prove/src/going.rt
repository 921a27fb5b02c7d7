ghost use Rattle.std.specs.Prelude.{◌≡◌, ◌+◌, ◌∷◌, IfOk, Ok, sum_by};
ghost use Rattle.larch_prove.specs.State.{IsGoingFor, told_outcome, waiting_in};
ghost use Rattle.larch_prove_resuming.specs.ProveDraftDraft.{below_in};
ghost use Rattle.larch_prove_meaning.specs.Levels.{Proof};
ghost use Rattle.larch_prove_meaning.specs.Replays.{outcome_of, told_number};
ghost use Rattle.larch_term.specs.declared.statement.Statement.{Statement as is_statement};

use crate::outcome::Outcome;
use larch_base::Memory;
use larch_prove_resuming::from_prove_draft::Draft;
use larch_prove_resuming::from_prove_levels::Level;
use larch_prove_resuming::from_prove_work::{Claim, Work};
use std::alloc::Global;
use std::rc::Rc;

// A block that isn't refused: what is proved, what commands work on, and how many there were.
pub(crate) struct Going {
    pub(crate) alloc: Global,
    pub(crate) claim: Rc<Claim>,
    pub(crate) work: Work,
    pub(crate) commands: u32,
}

// By a call, so that a proof takes one apart in one place alone.
impl Drop for Going {
    fn drop(self) {
        let Going {
            alloc: _alloc,
            claim: _claim,
            work: _work,
            commands: _commands,
        } = self;
    }
}

impl Going {
    // The same once more.
    pub(crate) fn copy(&self) -> Result<Going, Memory>
        ensures { IfOk result (λ going. (s : is_statement) (p : Proof) → IsGoingFor s self.now p
            → IsGoingFor s going p) }
    {
        let claim = self.claim.clone()?;
        let work = self.work.copy(self.alloc)?;
        Ok(Going {
            alloc: self.alloc,
            claim,
            work,
            commands: self.commands,
        })
    }

    // The number of the next command.
    pub(crate) fn next_number(&self) -> u32
        ensures { result ≡ told_number (self.now.commands + 1) }
    {
        self.commands.saturating_add(1)
    }

    // What the block has come to.
    pub(crate) fn outcome(&self) -> Result<Outcome, Memory>
        ensures { IfOk result (λ outcome. (s : is_statement) (p : Proof) → IsGoingFor s self.now p
            → told_outcome outcome ≡ outcome_of (Ok p)) }
    {
        let draft = &self.work.draft;
        if draft.is_proved {
            return Ok(Outcome::Proved);
        }
        let goal = self.work.store.to_term(&draft.current.goal.term)?;
        let goals = open_goals(draft);
        Ok(Outcome::Suspended { goals, goal })
    }
}

// How many goals are open: the current one, and all that wait on some level.
fn open_goals(draft: &Draft) -> u32
    ensures { result ≡ told_number (1 + sum_by waiting_in (draft.now.current ∷ below_in draft.now)) }
{
    let mut goals = waiting_on(&draft.current).saturating_add(1);
    for level in &draft.below {
        goals = goals.saturating_add(waiting_on(level));
    }
    goals
}

// How many subgoals of a level's method wait.
fn waiting_on(level: &Level) -> u32
    ensures { result ≡ told_number (waiting_in level.now) }
{
    let Some(running) = &level.running else {
        return 0;
    };
    let planned = running.planned.plan.subgoals.as_slice().len();
    let begun = running.left.as_slice().len().saturating_add(1);
    u32::try_from(planned.saturating_sub(begun)).unwrap_or(u32::MAX)
}
