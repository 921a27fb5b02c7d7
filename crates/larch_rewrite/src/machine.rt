ghost use Rattle.std.specs.Prelude.{◌≡◌, ℕ, List, All, true, IfOk, IfErr, OnOk};
ghost use Rattle.larch_rewrite_step.specs.Encoding.{AreEncodings, AreOfStore};
ghost use Rattle.larch_derive.specs.Predicates.{Extends, HasEquation, Known};
ghost use Rattle.larch_derive.specs.declared.builder.Builder.{Builder as is_builder};
ghost use Rattle.larch_rewrite_meaning.specs.NormalForm.{normal};
ghost use Rattle.larch_rewrite_meaning.specs.Sides.{Sides};
ghost use Rattle.larch_rewrite.specs.Kept.{IsForm, IsFront, IsLed, IsOfStore};
ghost use Rattle.larch_rewrite.specs.Level.{IsFrameOf, IsLast, IsStored, IsTurnOf, Works, level_of, start_of};
ghost use Rattle.larch_rewrite.specs.Refusal.{IsMade, TellsEvent};
ghost use Rattle.larch_rewrite.specs.RuleSet.{PlainRule, sides_in};
ghost use Rattle.larch_rewrite.specs.Ways.{MayBegin, Says};
ghost use Rattle.larch_rewrite.specs.declared.kept.KeptForm.{KeptForm};
ghost use Rattle.larch_rewrite.specs.declared.level.Turn.TheVariants.{Arguments as among_arguments, Finish as finished};
ghost use Rattle.larch_store.specs.Numbered.{term_of};
ghost use Rattle.larch_store.specs.Stored.{Belongs, Grows};
ghost use Rattle.larch_term.specs.Tree.{Tree};
ghost use Rattle.larch_rewrite_step.specs.DeriveLinesWay.{Leads};

use crate::applying::rewrite;
use crate::finishing::{keep, push_whole, resume};
use crate::kept::Kept;
use crate::layered_rules::LayeredRules;
use crate::level::{Frame, Level, Means, Turn};
use crate::refusal::RewriteRefusal;
use crate::turning::{argument, begin, first_level, form};
use larch_base::Memory;
use larch_derive::Builder;
use larch_rewrite_step::Encodings;
use larch_store::{Shared, Store};

/// A normal form, what it costs, and the number of a line that says that the term equals it.
#[derive(Drop)]
pub struct Normal {
    pub form: Shared,
    pub cost: u32,
    pub line: u64,
}

// What waits while the machine runs: terms whose arguments are being normalised, the innermost last; and what
// applications take.
#[derive(Drop)]
pub(crate) struct Pending {
    pub(crate) frames: Vec<Frame>,
    pub(crate) means: Means,
}

// One turn, to the next one. Where nothing waits any longer for a normal form, that is the last turn, and stays.
#[tactic(auto, using(larch_derive::proofs::Growth::extends_same, larch_store::proofs::Growth::grows_refl))]
fn step(
    store: &mut Store,
    builder: &mut Builder,
    rules: &LayeredRules,
    kept: &mut Kept,
    pending: &mut Pending,
    turn: Turn,
) -> Result<Turn, RewriteRefusal>
    requires stored { IsStored store.old kept.old pending.old.frames.items turn }
    requires encodings { AreOfStore store.old pending.old.means.encodings }
    ensures stored { IfOk result (IsStored store.new kept.new pending.new.frames.items) }
    ensures grows { Grows store.old store.new }
    ensures front { IsFront kept.old kept.new }
    ensures works { IfOk result (λ t. (whole : Tree) (budget : ℕ)
        → Works (sides_in rules.now) whole budget kept.old pending.old.frames.items turn pending.old.means.left
        → Works (sides_in rules.now) whole budget kept.new pending.new.frames.items t pending.new.means.left) }
    ensures refused { IfErr result (λ e. (whole : Tree) (budget : ℕ)
        → Works (sides_in rules.now) whole budget kept.old pending.old.frames.items turn pending.old.means.left
        → TellsEvent (normal (sides_in rules.now) whole budget) e) }
    ensures says { IfOk result (λ t. Says builder.old rules.now kept.old pending.old.frames.items turn
        → AreEncodings builder.old pending.old.means.encodings
        → Says builder.new rules.now kept.new pending.new.frames.items t) }
    ensures extends { Says builder.old rules.now kept.old pending.old.frames.items turn
        → AreEncodings builder.old pending.old.means.encodings → Extends builder.old builder.new }
    ensures belong { OnOk result (AreOfStore store.new pending.new.means.encodings) }
    ensures encodings { OnOk result (AreEncodings builder.old pending.old.means.encodings
        → AreEncodings builder.old pending.new.means.encodings) }
{
    let alloc = *pending.frames.allocator();
    match turn {
        Turn::Begin(level) => {
            let turn = begin(alloc, store, builder, kept, level, &mut pending.means.left)?;
            keep(store, kept, &turn, pending.means.left);
            Ok(turn)
        }
        Turn::Arguments(frame) => {
            let turn = go_on(store, pending, frame)?;
            Ok(turn)
        }
        Turn::Root(level) => {
            let turn = rewrite(store, builder, rules, kept, level, &mut pending.means)?;
            keep(store, kept, &turn, pending.means.left);
            Ok(turn)
        }
        Turn::Finish(level) => {
            let turn = go_up(store, builder, pending, level)?;
            Ok(turn)
        }
    }
}

// The turn behind one among a frame's arguments: the next one begins and the frame waits, or all are done.
#[tactic(auto, using(larch_derive::proofs::Growth::extends_same, larch_store::proofs::Growth::grows_refl))]
fn go_on(store: &mut Store, pending: &mut Pending, frame: Frame) -> Result<Turn, RewriteRefusal>
    requires frames { All (IsFrameOf store.old) pending.old.frames.items }
    requires turn { IsTurnOf store.old (among_arguments frame) }
    ensures frames { OnOk result (All (IsFrameOf store.new) pending.new.frames.items) }
    ensures turn { IfOk result (IsTurnOf store.new) }
    ensures grows { Grows store.old store.new }
    ensures works { IfOk result (λ t. (rs : List Sides) (whole : Tree) (budget : ℕ) (kept : List KeptForm)
        → Works rs whole budget kept pending.old.frames.items (among_arguments frame) pending.old.means.left
        → Works rs whole budget kept pending.new.frames.items t pending.new.means.left) }
    ensures refused { IfErr result (λ e. (rs : List Sides) (whole : Tree) (budget : ℕ) (kept : List KeptForm)
        → Works rs whole budget kept pending.old.frames.items (among_arguments frame) pending.old.means.left
        → TellsEvent (normal rs whole budget) e) }
    ensures says { IfOk result (λ t. (b : is_builder) (rules : List PlainRule) (kept : List KeptForm)
        → Says b rules kept pending.old.frames.items (among_arguments frame)
        → Says b rules kept pending.new.frames.items t) }
    ensures means { pending.new.means ≡ pending.old.means }
{
    store.children_belong();
    match argument(&frame, pending.means.left)? {
        Some(level) => {
            pending.frames.push(frame)?;
            Ok(Turn::Begin(level))
        }
        None => {
            let turn = form(store, frame)?;
            Ok(turn)
        }
    }
}

// The turn behind a normal form: what waited for it innermost goes on. Where nothing waits the turn stays.
#[tactic(auto, using(larch_derive::proofs::Growth::extends_same, larch_store::proofs::Growth::grows_refl))]
fn go_up(
    store: &Store,
    builder: &mut Builder,
    pending: &mut Pending,
    level: Level,
) -> Result<Turn, Memory>
    requires frames { All (IsFrameOf store.now) pending.old.frames.items }
    requires turn { IsTurnOf store.now (finished level) }
    requires encodings { AreOfStore store.now pending.old.means.encodings }
    ensures frames { OnOk result (All (IsFrameOf store.now) pending.new.frames.items) }
    ensures turn { IfOk result (IsTurnOf store.now) }
    ensures works { IfOk result (λ t. (rs : List Sides) (whole : Tree) (budget : ℕ) (kept : List KeptForm)
        → Works rs whole budget kept pending.old.frames.items (finished level) pending.old.means.left
        → Works rs whole budget kept pending.new.frames.items t pending.new.means.left) }
    ensures says { IfOk result (λ t. (rules : List PlainRule) (kept : List KeptForm)
        → Says builder.old rules kept pending.old.frames.items (finished level)
        → AreEncodings builder.old pending.old.means.encodings
        → Says builder.new rules kept pending.new.frames.items t) }
    ensures extends { (rules : List PlainRule) (kept : List KeptForm)
        → Says builder.old rules kept pending.old.frames.items (finished level)
        → AreEncodings builder.old pending.old.means.encodings → Extends builder.old builder.new }
    ensures belong { AreOfStore store.now pending.new.means.encodings }
    ensures encodings { AreEncodings builder.old pending.old.means.encodings
        → AreEncodings builder.old pending.new.means.encodings }
{
    let Some(frame) = pending.frames.pop() else {
        return Ok(Turn::Finish(level));
    };
    let frame = resume(store, builder, &mut pending.means.encodings, frame, level)?;
    Ok(Turn::Arguments(frame))
}

// Whether a turn is the last one: a normal form for which nothing waits.
fn is_last(turn: &Turn, pending: &Pending) -> bool
    ensures { result ≡ true → IsLast pending.now.frames.items turn.now }
{
    match turn {
        Turn::Finish(_) => pending.frames.is_empty(),
        _ => false,
    }
}

// The normal form to which the last turn has come.
fn normal_of(
    store: &Store,
    builder: &mut Builder,
    encodings: &mut Encodings,
    turn: Turn,
    cost: u32,
) -> Result<Normal, Memory>
    requires start { Belongs store.now (level_of turn).start }
    requires encodings { AreOfStore store.now encodings.old }
    ensures form { IfOk result (λ n. n.form ≡ (level_of turn).term) }
    ensures cost { IfOk result (λ n. n.cost ≡ cost) }
    ensures says { IfOk result (λ n. (t : Tree) → Known builder.old (start_of turn)
        → Leads builder.old (level_of turn).way (start_of turn) t → AreEncodings builder.old encodings.old
        → HasEquation builder.new n.line (start_of turn) t) }
    ensures extends { (t : Tree) → Known builder.old (start_of turn)
        → Leads builder.old (level_of turn).way (start_of turn) t → AreEncodings builder.old encodings.old
        → Extends builder.old builder.new }
{
    let level = turn.into_level();
    let line = push_whole(store, builder, encodings, &level.start, level.way)?;
    Ok(Normal {
        form: level.term,
        cost,
        line,
    })
}

/// The normal form of a term by rules under a budget, or the first event.
#[tactic(auto, using(larch_derive::proofs::Growth::extends_same, larch_store::proofs::Growth::grows_refl))]
pub(crate) fn run(
    store: &mut Store,
    builder: &mut Builder,
    rules: &LayeredRules,
    kept: &mut Kept,
    term: &Shared,
    budget: u32,
) -> Result<Normal, RewriteRefusal>
    requires term { Belongs store.old term.now }
    requires kept { All (IsOfStore store.old) kept.old }
    requires forms { All (IsForm (sides_in rules.now)) kept.old }
    ensures belongs { IfOk result (λ n. Belongs store.new n.form) }
    ensures made { IfOk result (λ n. IsMade budget n.cost (term_of n.form)
        (normal (sides_in rules.now) (term_of term.now) budget)) }
    ensures refused { IfErr result (TellsEvent (normal (sides_in rules.now) (term_of term.now) budget)) }
    ensures grows { Grows store.old store.new }
    ensures front { IsFront kept.old kept.new }
    ensures kept { OnOk result (All (IsOfStore store.new) kept.new) }
    ensures forms { OnOk result (All (IsForm (sides_in rules.now)) kept.new) }
    ensures says { IfOk result (λ n. MayBegin builder.old rules.now kept.old (term_of term.now)
        → HasEquation builder.new n.line (term_of term.now) (term_of n.form)) }
    ensures led { OnOk result (MayBegin builder.old rules.now kept.old (term_of term.now)
        → All (IsLed builder.new) kept.new) }
    ensures extends { MayBegin builder.old rules.now kept.old (term_of term.now) → Extends builder.old builder.new }
{
    let encodings = Encodings::new(kept.allocator());
    let mut pending = Pending {
        frames: Vec::new(kept.allocator()),
        means: Means {
            left: budget,
            encodings,
        },
    };
    let first = first_level(term, budget)?;
    let mut turn = Turn::Begin(first);
    for _ in 0..u64::MAX {
        if is_last(&turn, &pending) {
            let cost = budget.saturating_sub(pending.means.left);
            let encodings = &mut pending.means.encodings;
            let normal = normal_of(store, builder, encodings, turn, cost)?;
            return Ok(normal);
        }
        turn = step(store, builder, rules, kept, &mut pending, turn)?;
    }
    // There are never so many turns.
    Err(RewriteRefusal::Memory)
}
