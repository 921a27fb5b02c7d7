ghost use Rattle.std.specs.Prelude.{◌≡◌, ◌+◌, ◌∷◌, ◌++◌, [], List, All, IfOk, OnOk, OnErr, length};
ghost use Rattle.larch_derive.specs.Predicates.{Extends, HasEquation, Known};
ghost use Rattle.larch_rewrite_step.specs.Encoding.{AreEncodings, AreOfStore};
ghost use Rattle.larch_rewrite.specs.Kept.{IsKeptAt, IsOfStore, kept_of};
ghost use Rattle.larch_rewrite.specs.Level.{IsTurnOf};
ghost use Rattle.larch_rewrite.specs.Ways.{with_argument};
ghost use Rattle.larch_store.specs.Numbered.{term_of};
ghost use Rattle.larch_store.specs.Stored.{Belongs};
ghost use Rattle.larch_term.specs.Operator.{PlainOperator};
ghost use Rattle.larch_term.specs.Tree.{Tree, app, forest_of};
ghost use Rattle.larch_rewrite_step.specs.DeriveLinesWay.{Leads};

use crate::kept::{Kept, KeptForm};
use crate::level::{Frame, Level, Turn};
use larch_base::Memory;
use larch_derive::Builder;
use larch_rewrite_step::from_derive_lines::push_argument;
use larch_rewrite_step::{Encodings, push_shared_refl};
use larch_store::{Shared, Store};

/// Keeps the normal form to which a turn's level has come, unless that of its start is kept already, or memory runs
/// out.
pub(crate) fn keep(store: &Store, kept: &mut Kept, turn: &Turn, left: u32)
    requires turn { IsTurnOf store.now turn.now }
    requires kept { All (IsOfStore store.now) kept.old }
    ensures { IsKeptAt kept.old turn.now left kept.new }
{
    let Turn::Finish(level) = turn else {
        return;
    };
    if kept.find(store, &level.start).is_some() {
        return;
    }
    let Ok(form) = kept_form(level, left) else {
        return;
    };
    let _ = kept.push(store, form);
}

// What is to be kept of a level.
fn kept_form(level: &Level, left: u32) -> Result<KeptForm, Memory>
    ensures { IfOk result (λ k. k ≡ kept_of level.now left) }
{
    let start = level.start.copy()?;
    let form = level.term.copy()?;
    Ok(KeptForm {
        start,
        form,
        cost: level.begun.saturating_sub(left),
        way: level.way,
    })
}

/// A frame with one more argument done, by the level that has come to its normal form.
#[tactic(auto, using(larch_derive::proofs::Growth::extends_same))]
pub(crate) fn resume(
    store: &Store,
    builder: &mut Builder,
    encodings: &mut Encodings,
    frame: Frame,
    level: Level,
) -> Result<Frame, Memory>
    requires start { Belongs store.now frame.level.start }
    requires encodings { AreOfStore store.now encodings.old }
    ensures level { IfOk result (λ f. (f.level.start ≡ frame.level.start) × (f.level.begun ≡ frame.level.begun)
        × (f.level.term ≡ frame.level.term)) }
    ensures done { IfOk result (λ f. f.done ≡ frame.done ++ level.term ∷ []) }
    ensures says { IfOk result (λ f. Known builder.old (term_of frame.level.start)
        → Leads builder.old level.way (term_of level.start) (term_of level.term)
        → Leads builder.old frame.level.way (term_of frame.level.start) (with_argument frame (term_of level.start))
        → AreEncodings builder.old encodings.old
        → Leads builder.new f.level.way (term_of frame.level.start) (with_argument frame (term_of level.term))) }
    ensures extends { Known builder.old (term_of frame.level.start)
        → Leads builder.old level.way (term_of level.start) (term_of level.term)
        → Leads builder.old frame.level.way (term_of frame.level.start) (with_argument frame (term_of level.start))
        → AreEncodings builder.old encodings.old → Extends builder.old builder.new }
    ensures belong { AreOfStore store.now encodings.new }
    ensures encodings { AreEncodings builder.old encodings.old → AreEncodings builder.old encodings.new }
{
    let Frame { level: outer, done } = frame;
    let number = done.as_slice().len() as u64 + 1;
    let way = argument_way(store, builder, encodings, &outer, number, level.way)?;
    let mut done = done;
    done.push(level.term)?;
    Ok(Frame {
        level: Level {
            start: outer.start,
            begun: outer.begun,
            way,
            term: outer.term,
        },
        done,
    })
}

// The way of a level, with the argument with a number changed as a further way leads.
#[tactic(auto, using(larch_derive::proofs::Growth::extends_same))]
fn argument_way(
    store: &Store,
    builder: &mut Builder,
    encodings: &mut Encodings,
    outer: &Level,
    number: u64,
    by: Option<u64>,
) -> Result<Option<u64>, Memory>
    requires start { Belongs store.now outer.now.start }
    requires encodings { AreOfStore store.now encodings.old }
    ensures says { IfOk result (λ w. (t u : Tree) (f : PlainOperator) (done rest : List Tree) → number ≡ length done + 1
        → Known builder.old (term_of outer.now.start) → Leads builder.old by t u
        → Leads builder.old outer.now.way (term_of outer.now.start) (app f (forest_of (done ++ t ∷ rest)))
        → AreEncodings builder.old encodings.old
        → Leads builder.new w (term_of outer.now.start) (app f (forest_of (done ++ u ∷ rest)))) }
    ensures extends { (t u : Tree) (f : PlainOperator) (done rest : List Tree) → number ≡ length done + 1
        → Known builder.old (term_of outer.now.start) → Leads builder.old by t u
        → Leads builder.old outer.now.way (term_of outer.now.start) (app f (forest_of (done ++ t ∷ rest)))
        → AreEncodings builder.old encodings.old → Extends builder.old builder.new }
    ensures belong { AreOfStore store.now encodings.new }
    ensures encodings { AreEncodings builder.old encodings.old → AreEncodings builder.old encodings.new }
{
    let Some(by) = by else {
        return Ok(outer.way);
    };
    let line = push_whole(store, builder, encodings, &outer.start, outer.way)?;
    let changed = push_argument(encodings.allocator(), builder, line, number, by)?;
    Ok(Some(changed))
}

/// A line that says where a way leads from a known shared term, which is written unless it was written before.
#[tactic(auto, using(larch_derive::proofs::Growth::extends_same))]
pub(crate) fn push_whole(
    store: &Store,
    builder: &mut Builder,
    encodings: &mut Encodings,
    start: &Shared,
    way: Option<u64>,
) -> Result<u64, Memory>
    requires start { Belongs store.now start.now }
    requires encodings { AreOfStore store.now encodings.old }
    ensures says { IfOk result (λ n. (t : Tree) → Known builder.old (term_of start.now)
        → Leads builder.old way (term_of start.now) t → AreEncodings builder.old encodings.old
        → HasEquation builder.new n (term_of start.now) t) }
    ensures extends { (t : Tree) → Known builder.old (term_of start.now) → Leads builder.old way (term_of start.now) t
        → AreEncodings builder.old encodings.old → Extends builder.old builder.new }
    ensures belong { AreOfStore store.now encodings.new }
    ensures encodings { AreEncodings builder.old encodings.old → AreEncodings builder.old encodings.new }
{
    match way {
        Some(line) => Ok(line),
        None => push_shared_refl(store, builder, encodings, start),
    }
}
