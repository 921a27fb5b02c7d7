ghost use Rattle.std.specs.Option.{option_copied};
ghost use Rattle.std.specs.Prelude.{◌≡◌, IfOk, IsTrue, List};
ghost use Rattle.larch_prove_boxes.specs.DeriveBuilderBuilder.{Builder as is_builder};
ghost use Rattle.larch_prove_adding.specs.KeptFacts.{AreSaid, facts_of, lines_of};
ghost use Rattle.larch_prove_boxes.specs.ProveInvariantHolding.{HasAbsurd, HasFacts};
ghost use Rattle.larch_prove_levels.specs.Level.{AreSameMethods, IsCopy};
ghost use Rattle.larch_prove_adding.specs.RewriteRuleSet.{BelongsTo};
ghost use Rattle.larch_store.specs.Numbered.{Numbered};

use larch_base::{Memory, Sequence};
use larch_prove_adding::{Facts, LevelGoal};
use larch_prove_boxes::Leave;
use larch_prove_boxes::from_derive::{OpenBox, OpenBoxes};
use larch_prove_boxes::from_prove_plans::{Method, Plan};
use larch_store::Shared;
use larch_term::copy_operators;
use std::alloc::Global;
use std::rc::Rc;

/// What a level's goal is.
#[derive(Clone, Copy)]
pub enum Purpose {
    /// The duty's.
    OfDuty,
    /// A subgoal of the method below.
    OfSubgoal,
    /// A formula that a command proves, which is the level's first goal.
    OfProof,
}

/// A method with what it was planned to do.
#[derive(Drop)]
pub struct Planned {
    pub method: Method,
    pub plan: Plan,
}

/// A method that runs on a level: the box that its subgoals share, if it has one; and how the subgoals were
/// left that are proved. The next one of the plan is open.
#[derive(Drop)]
pub struct Running {
    pub planned: Rc<Planned>,
    pub shared: Option<OpenBox>,
    pub left: Sequence<Leave>,
}

/// A level of a proof, with the lines and boxes by which a builder holds it.
#[derive(Drop)]
pub struct Level {
    pub purpose: Purpose,
    pub facts: Facts,
    pub goal: LevelGoal,
    /// The goal with which the level was entered.
    pub first: Shared,
    /// The box by which it was entered, if it has one.
    pub entrance: Option<OpenBox>,
    /// The boxes for constants whose own box isn't open, the outermost first.
    pub extras: OpenBoxes,
    pub running: Option<Running>,
}

impl Level {
    /// The same level once more. The two share what is there, but for the boxes of the level and how subgoals of its
    /// method were left. No normal form is kept of its facts, so they are said wherever lines say them.
    pub fn copy(&self, alloc: Global) -> Result<Level, Memory>
        ensures same { IfOk result (IsCopy self.now) }
        ensures kept { IfOk result (λ level. (s : List Numbered) → BelongsTo s level.facts.rules) }
        ensures said { IfOk result (λ level. (b : is_builder)
            → HasFacts b (facts_of self.now.facts).rules (lines_of self.now.facts)
            → (IsTrue (facts_of self.now.facts).contradictory → HasAbsurd b self.now.facts.absurd)
            → AreSaid b level.facts) }
    {
        let facts = self.facts.copy()?;
        let goal = self.goal.term.copy()?;
        let first = self.first.copy()?;
        let entrance = copy_opened(alloc, self.entrance.as_ref())?;
        let extras = copy_boxes(alloc, self.extras.as_slice())?;
        let running = copy_running(alloc, self.running.as_ref())?;
        Ok(Level {
            purpose: self.purpose,
            facts,
            goal: LevelGoal {
                term: goal,
                way: self.goal.way,
            },
            first,
            entrance,
            extras,
            running,
        })
    }
}

// The same method once more.
fn copy_running(alloc: Global, running: Option<&Running>) -> Result<Option<Running>, Memory>
    ensures { IfOk result (AreSameMethods (option_copied running.entry)) }
{
    let Some(running) = running else {
        return Ok(None);
    };
    let planned = running.planned.clone()?;
    let shared = copy_opened(alloc, running.shared.as_ref())?;
    let left = copy_all_left(alloc, running.left.as_slice())?;
    Ok(Some(Running {
        planned,
        shared,
        left,
    }))
}

// How subgoals were left, once more.
fn copy_all_left(alloc: Global, left: &[Leave]) -> Result<Sequence<Leave>, Memory>
    ensures { IfOk result (λ copies. copies ≡ left.now) }
{
    let mut copies = Sequence::new(alloc);
    for one in left {
        let copied = copy_left(alloc, one)?;
        copies.push(copied)?;
    }
    Ok(copies)
}

fn copy_left(alloc: Global, left: &Leave) -> Result<Leave, Memory>
    ensures { IfOk result (λ copied. copied ≡ left.now) }
{
    match left {
        Leave::InBox(closed) => {
            let copied = copy_box(alloc, closed)?;
            Ok(Leave::InBox(copied))
        }
        Leave::AtLine(line) => Ok(Leave::AtLine(*line)),
    }
}

// The same boxes once more.
fn copy_boxes(alloc: Global, boxes: &[OpenBox]) -> Result<OpenBoxes, Memory>
    ensures { IfOk result (λ copies. copies ≡ boxes.now) }
{
    let mut copies = Sequence::new(alloc);
    for open_box in boxes {
        let copied = copy_box(alloc, open_box)?;
        copies.push(copied)?;
    }
    Ok(copies)
}

fn copy_opened(alloc: Global, opened: Option<&OpenBox>) -> Result<Option<OpenBox>, Memory>
    ensures { IfOk result (λ copied. copied ≡ option_copied opened.entry) }
{
    let Some(opened) = opened else {
        return Ok(None);
    };
    let copied = copy_box(alloc, opened)?;
    Ok(Some(copied))
}

fn copy_box(alloc: Global, open_box: &OpenBox) -> Result<OpenBox, Memory>
    ensures { IfOk result (λ copied. copied ≡ open_box.now) }
{
    let constants = copy_operators(alloc, open_box.constants.as_slice())?;
    Ok(OpenBox {
        number: open_box.number,
        constants,
    })
}
