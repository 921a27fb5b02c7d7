ghost use Rattle.std.specs.Prelude.{◌≡◌, ◌+◌, ◌≤◌, ℕ, List, All, None, IfOk, IfErr, IfSome, IfNone, OnOk, length};
ghost use Rattle.larch_derive.specs.Predicates.{Extends};
ghost use Rattle.larch_rewrite_meaning.specs.NormalForm.{normal};
ghost use Rattle.larch_rewrite_meaning.specs.Sides.{Sides};
ghost use Rattle.larch_rewrite.specs.Kept.{IsForm, IsLed, IsOfStore};
ghost use Rattle.larch_rewrite.specs.Level.{HaveOneStart, IsArgument, IsTurnOf, level_of, work_at};
ghost use Rattle.larch_rewrite.specs.Refusal.{TellsEvent};
ghost use Rattle.larch_rewrite.specs.Ways.{IsWayTo, term_reached};
ghost use Rattle.larch_rewrite.specs.declared.level.Turn.TheVariants.{Begin, Arguments as among_arguments};
ghost use Rattle.larch_store.specs.Numbered.{children_of, term_of};
ghost use Rattle.larch_store.specs.Stored.{Grows};
ghost use Rattle.larch_term.specs.Tree.{Tree};
ghost use Rattle.larch_rewrite_step.specs.DeriveLinesWay.{Leads};

use crate::kept::{Kept, KeptForm};
use crate::level::{Frame, Level, Turn};
use crate::refusal::RewriteRefusal;
use larch_base::Memory;
use larch_derive::Builder;
use larch_rewrite_step::from_derive_lines::push_further;
use larch_store::{Shared, SharedList, SharedNode, Store};
use std::alloc::Global;

/// The level at which the work on a term under a budget begins.
pub(crate) fn first_level(term: &Shared, budget: u32) -> Result<Level, Memory>
    ensures { IfOk result (λ l. l ≡ record { start = term.now; begun = budget; way = None; term = term.now }) }
{
    let start = term.copy()?;
    let term = term.copy()?;
    Ok(Level {
        start,
        begun: budget,
        way: None,
        term,
    })
}

/// The turn with which the work on a term begins: what is kept of it is taken for its whole cost; else its arguments
/// are next.
#[tactic(auto, using(larch_derive::proofs::Growth::extends_same, crate::proofs::Levels::small_is, crate::proofs::Levels::begins_arguments, crate::proofs::Roots::kept_is_made, crate::proofs::Roots::kept_tells))]
pub(crate) fn begin(
    alloc: Global,
    store: &Store,
    builder: &mut Builder,
    kept: &Kept,
    level: Level,
    left: &mut u32,
) -> Result<Turn, RewriteRefusal>
    requires turn { IsTurnOf store.now (Begin level) }
    requires kept { All (IsOfStore store.now) kept.now }
    ensures start { IfOk result (λ t. HaveOneStart t (Begin level)) }
    ensures turn { IfOk result (IsTurnOf store.now) }
    ensures work { IfOk result (λ t. (rs : List Sides) → All (IsForm rs) kept.now
        → work_at rs (Begin level) left.old ≡ work_at rs t left.new) }
    ensures refused { IfErr result (λ e. (rs : List Sides) → All (IsForm rs) kept.now
        → TellsEvent (work_at rs (Begin level) left.old) e) }
    ensures says { IfOk result (λ t. (x : Tree) → All (IsLed builder.old) kept.now
        → IsWayTo builder.old x (Begin level) → IsWayTo builder.new x t) }
    ensures extends { (x : Tree) → All (IsLed builder.old) kept.now → IsWayTo builder.old x (Begin level)
        → Extends builder.old builder.new }
{
    store.sizes_are_told();
    let Some(form) = kept.find(store, &level.term) else {
        return Ok(Turn::Arguments(Frame {
            level,
            done: SharedList::new(alloc),
        }));
    };
    let level = charge(alloc, builder, form, level, left)?;
    Ok(Turn::Finish(level))
}

// A level with what is kept of its term.
#[tactic(auto, using(larch_derive::proofs::Growth::extends_same, larch_rewrite_law::proofs::Charging::cost_used_up))]
fn charge(
    alloc: Global,
    builder: &mut Builder,
    kept: &KeptForm,
    level: Level,
    left: &mut u32,
) -> Result<Level, RewriteRefusal>
    ensures level { IfOk result (λ l. (l.start ≡ level.start) × (l.begun ≡ level.begun) × (l.term ≡ kept.now.form)) }
    ensures spent { OnOk result (left.old ≡ left.new + kept.now.cost) }
    ensures refused { IfErr result (λ e. (rs : List Sides) → IsForm rs kept.now
        → TellsEvent (normal rs (term_of kept.now.start) left.old) e) }
    ensures says { IfOk result (λ l. (s : Tree) → IsLed builder.old kept.now
        → Leads builder.old level.way s (term_of kept.now.start) → Leads builder.new l.way s (term_of kept.now.form)) }
    ensures extends { (s : Tree) → IsLed builder.old kept.now → Leads builder.old level.way s (term_of kept.now.start)
        → Extends builder.old builder.new }
{
    if kept.cost > *left {
        return Err(RewriteRefusal::Limit);
    }
    let term = kept.form.copy()?;
    let way = further_way(alloc, builder, level.way, kept.way)?;
    *left -= kept.cost;
    Ok(Level {
        start: level.start,
        begun: level.begun,
        way,
        term,
    })
}

// The way that goes on by a further one.
#[tactic(auto, using(larch_derive::proofs::Growth::extends_same, crate::proofs::Roots::led_on))]
fn further_way(
    alloc: Global,
    builder: &mut Builder,
    way: Option<u64>,
    further: Option<u64>,
) -> Result<Option<u64>, Memory>
    ensures leads { IfOk result (λ w. (s t u : Tree) → Leads builder.old way s t → Leads builder.old further t u
        → Leads builder.new w s u) }
    ensures extends { (s t u : Tree) → Leads builder.old way s t → Leads builder.old further t u
        → Extends builder.old builder.new }
{
    match further {
        None => Ok(way),
        Some(line) => {
            let number = push_further(alloc, builder, way, line)?;
            Ok(Some(number))
        }
    }
}

/// The level of the first argument that isn't done, if there is one.
#[tactic(auto, using(crate::proofs::Levels::applies, crate::proofs::Levels::child_got, crate::proofs::Levels::none_left, crate::proofs::Levels::variable_children))]
pub(crate) fn argument(frame: &Frame, left: u32) -> Result<Option<Level>, Memory>
    ensures some { IfOk result (λ o. IfSome o (IsArgument frame.now left)) }
    ensures none { IfOk result (λ o. IfNone o (length (children_of frame.now.level.term) ≤ length frame.now.done)) }
{
    let SharedNode::Application(_, arguments) = frame.level.term.node() else {
        return Ok(None);
    };
    let arguments = arguments.as_slice();
    let index = frame.done.as_slice().len();
    if index >= arguments.len() {
        return Ok(None);
    }
    let level = first_level(&arguments[index], left)?;
    Ok(Some(level))
}

/// The turn at the root of a level's term, all of whose arguments are done.
#[tactic(auto, using(larch_store::proofs::Growth::grows_refl, larch_store::proofs::Growth::belongs_stays, crate::proofs::Levels::variable_work, crate::proofs::Levels::variable_done, crate::proofs::Levels::formed_work, crate::proofs::Levels::formed_done, crate::proofs::Levels::formed_large))]
pub(crate) fn form(store: &mut Store, frame: Frame) -> Result<Turn, RewriteRefusal>
    requires turn { IsTurnOf store.old (among_arguments frame) }
    requires all { length (children_of frame.level.term) ≤ length frame.done }
    ensures start { IfOk result (λ t. HaveOneStart t (among_arguments frame)) }
    ensures way { IfOk result (λ t. (level_of t).way ≡ frame.level.way) }
    ensures turn { IfOk result (IsTurnOf store.new) }
    ensures work { IfOk result (λ t. (rs : List Sides) (b : ℕ)
        → work_at rs (among_arguments frame) b ≡ work_at rs t b) }
    ensures refused { IfErr result (λ e. (rs : List Sides) (b : ℕ)
        → TellsEvent (work_at rs (among_arguments frame) b) e) }
    ensures reached { IfOk result (λ t. term_reached t ≡ term_reached (among_arguments frame)) }
    ensures grows { Grows store.old store.new }
{
    let Frame { level, done } = frame;
    let SharedNode::Application(operator, _) = level.term.node() else {
        return Ok(Turn::Root(level));
    };
    let term = store.apply(operator, &done)?;
    Ok(Turn::Root(Level {
        start: level.start,
        begun: level.begun,
        way: level.way,
        term,
    }))
}
