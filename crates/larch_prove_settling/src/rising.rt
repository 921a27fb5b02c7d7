ghost use Rattle.std.specs.Prelude.{◌≡◌, ◌<◌, [], IfErr, IfOk, IfSome, List, None, Ok, OnOk};
ghost use Rattle.std.specs.Prelude.{Result as Answer};
ghost use Rattle.larch_base.specs.declared.code.Code.{Code};
ghost use Rattle.larch_prove_draft.specs.Draft.{IsShown, IsShownIn, Leads, Stands, below_in};
ghost use Rattle.larch_prove_draft.specs.Proving.{IsOver, IsProvable};
ghost use Rattle.larch_prove_draft.specs.ProveInvariantBook.{Kept};
ghost use Rattle.larch_prove_draft.specs.ProveLevelsSupposing.{TellsCode};
ghost use Rattle.larch_prove_draft.specs.ProveMeaningLevels as defined;
ghost use Rattle.larch_prove_draft.specs.ProveMeaningLevels.{Proof, rise as risen, settle_goal};
ghost use Rattle.larch_prove_settling.specs.Rising.{IsSomeFormula, IsSomeLast, IsSomeLed, IsSomeShown, IsSomeStanding};
ghost use Rattle.larch_prove_settling.specs.Rising.{RisesForFormula, derived_below, entrance_of, proved_by, to_settle};
ghost use Rattle.larch_store.specs.Numbered.{Numbered, term_of};
ghost use Rattle.larch_store.specs.Stored.{Grows};

use crate::methods::follow;
use crate::parts::{leave_extras, pop_level};
use larch_base::Memory;
use larch_prove_draft::from_prove_boxes::end_duty;
use larch_prove_draft::from_prove_levels::{Level, Purpose, derive, line_of_goal, said_true};
use larch_prove_draft::from_rewrite::RewriteRefusal;
use larch_prove_draft::{Draft, Proving, mark};
use larch_store::{Shared, Store};
use std::alloc::Global;
use std::mem::replace;

/// Where the current goal is proved, what that leads to: subgoals are opened in turn, methods end, and what commands
/// have proved is added below, until a goal isn't proved at once or all is. A refusal comes exactly where it is the
/// defined one, or where memory runs out; the draft may then not be used.
#[tactic(auto, using(larch_store::proofs::Growth::grows_refl))]
pub fn settle<'a>(
    alloc: Global,
    store: &mut Store,
    proving: &Proving<'a>,
    draft: &mut Draft,
) -> Result<(), RewriteRefusal>
    requires provable { IsProvable proving.now.theory.now proving.now.statement.now }
    requires stands { IsSomeStanding proving.now.theory.now proving.now.statement.now
        proving.now.around.precedence.now proving.now.around.limit store.old draft.old }
    ensures settled { OnOk result ((p : Proof) (k : Kept) (ks : List Kept)
        → IsOver proving.now.theory.now proving.now.around.precedence.now proving.now.around.limit p
        → Stands proving.now.theory.now proving.now.statement.now store.old draft.old p k ks
        → Leads proving.now.theory.now proving.now.statement.now store.new draft.new p None (settle_goal p)) }
    ensures refused { IfErr result (λ refusal. (p : Proof) (k : Kept) (ks : List Kept)
        → IsOver proving.now.theory.now proving.now.around.precedence.now proving.now.around.limit p
        → Stands proving.now.theory.now proving.now.statement.now store.old draft.old p k ks
        → TellsCode (settle_goal p) refusal) }
    ensures grows { Grows store.old store.new }
{
    let shown = line_of_goal(alloc, store, &mut draft.builder, &draft.current)?;
    rise_on(alloc, store, proving, draft, shown)
}

// Where a line says that the current level is proved, what that leads to, level by level; where none does, the proof
// rests.
#[tactic(auto, using(larch_store::proofs::Growth::grows_refl))]
pub(crate) fn rise_on<'a>(
    alloc: Global,
    store: &mut Store,
    proving: &Proving<'a>,
    draft: &mut Draft,
    first: Option<u64>,
) -> Result<(), RewriteRefusal>
    requires provable { IsProvable proving.now.theory.now proving.now.statement.now }
    requires led { IsSomeLed proving.now.theory.now proving.now.statement.now
        proving.now.around.precedence.now proving.now.around.limit store.old draft.old first }
    ensures leads { OnOk result ((p : Proof) (answer : Answer Proof Code)
        → IsOver proving.now.theory.now proving.now.around.precedence.now proving.now.around.limit p
        → Leads proving.now.theory.now proving.now.statement.now store.old draft.old p first answer
        → Leads proving.now.theory.now proving.now.statement.now store.new draft.new p None answer) }
    ensures refused { IfErr result (λ refusal. (p : Proof) (answer : Answer Proof Code)
        → IsOver proving.now.theory.now proving.now.around.precedence.now proving.now.around.limit p
        → Leads proving.now.theory.now proving.now.statement.now store.old draft.old p first answer
        → TellsCode answer refusal) }
    ensures grows { Grows store.old store.new }
{
    let mut shown = first;
    while let Some(line) = shown {
        shown = rise(alloc, store, proving, draft, line)?;
    }
    Ok(())
}

// The current level is proved, as a line says: what that leads to on the level below.
#[tactic(auto, using(larch_store::proofs::Growth::grows_refl))]
fn rise<'a>(
    alloc: Global,
    store: &mut Store,
    proving: &Proving<'a>,
    draft: &mut Draft,
    line: u64,
) -> Result<Option<u64>, RewriteRefusal>
    requires provable { IsProvable proving.now.theory.now proving.now.statement.now }
    requires shown { IsSomeShown proving.now.theory.now proving.now.statement.now
        proving.now.around.precedence.now proving.now.around.limit store.old draft.old line }
    ensures leads { IfOk result (λ shown. (p : Proof) (below : List defined.Level) (level : defined.Level)
        → IsOver proving.now.theory.now proving.now.around.precedence.now proving.now.around.limit p
        → IsShown proving.now.theory.now proving.now.statement.now store.old draft.old p below level line
        → Leads proving.now.theory.now proving.now.statement.now store.new draft.new p shown (risen below level p)) }
    ensures refused { IfErr result (λ refusal. (p : Proof) (below : List defined.Level) (level : defined.Level)
        → IsOver proving.now.theory.now proving.now.around.precedence.now proving.now.around.limit p
        → IsShown proving.now.theory.now proving.now.statement.now store.old draft.old p below level line
        → TellsCode (risen below level p) refusal) }
    ensures falls { IfOk result (λ shown. IfSome shown (λ _.
        to_settle (below_in draft.new) < to_settle (below_in draft.old))) }
    ensures grows { Grows store.old store.new }
{
    let line = leave_extras(alloc, store, &mut draft.builder, &draft.current, line)?;
    mark(draft.checking, &mut draft.waiting, true)?;
    let Some(parent) = pop_level(alloc, &mut draft.below)? else {
        finish(alloc, proving, draft, line)?;
        return Ok(None);
    };
    let Level {
        purpose,
        first,
        entrance,
        ..
    } = replace(&mut draft.current, parent);
    match purpose {
        Purpose::OfDuty => unreachable!(),
        Purpose::OfSubgoal => follow(alloc, store, proving, draft, entrance, line),
        Purpose::OfProof => add_proved(alloc, store, proving, draft, &first, line),
    }
}

// The lowest level is proved, as a line says where its boxes for constants are closed: so is the duty.
fn finish<'a>(
    alloc: Global,
    proving: &Proving<'a>,
    draft: &mut Draft,
    line: u64,
) -> Result<(), Memory>
    requires provable { IsProvable proving.now.theory.now proving.now.statement.now }
    requires shown { IsSomeLast proving.now.theory.now proving.now.statement.now draft.old line }
    ensures leads { OnOk result ((store : List Numbered) (p : Proof) (level : defined.Level)
        → IsShownIn entrance_of proving.now.theory.now proving.now.statement.now store draft.old p [] level line
        → Leads proving.now.theory.now proving.now.statement.now store draft.new p None (Ok (proved_by level p))) }
{
    let entrance = draft.current.entrance.as_ref();
    end_duty(
        alloc,
        &mut draft.builder,
        proving.theory,
        proving.statement,
        entrance,
        line,
    )?;
    draft.is_proved = true;
    Ok(())
}

// A formula that a command proved is added below, as a line says it; where that proves the level, a line says so.
#[tactic(auto, using(larch_store::proofs::Growth::grows_refl))]
fn add_proved<'a>(
    alloc: Global,
    store: &mut Store,
    proving: &Proving<'a>,
    draft: &mut Draft,
    formula: &Shared,
    line: u64,
) -> Result<Option<u64>, RewriteRefusal>
    requires rises { IsSomeFormula proving.now.theory.now proving.now.statement.now
        proving.now.around.precedence.now proving.now.around.limit store.old draft.old (term_of formula.now) line }
    ensures leads { IfOk result (λ shown. (p : Proof) (below : List defined.Level) (parent level : defined.Level)
        → IsOver proving.now.theory.now proving.now.around.precedence.now proving.now.around.limit p
        → RisesForFormula proving.now.theory.now proving.now.statement.now store.old draft.old p below parent level
        (term_of formula.now) line
        → Leads proving.now.theory.now proving.now.statement.now store.new draft.new p shown
        (derived_below (term_of formula.now) parent below p)) }
    ensures refused { IfErr result (λ refusal. (p : Proof) (below : List defined.Level) (parent level : defined.Level)
        → IsOver proving.now.theory.now proving.now.around.precedence.now proving.now.around.limit p
        → RisesForFormula proving.now.theory.now proving.now.statement.now store.old draft.old p below parent level
        (term_of formula.now) line
        → TellsCode (derived_below (term_of formula.now) parent below p) refusal) }
    ensures below { below_in draft.new ≡ below_in draft.old }
    ensures grows { Grows store.old store.new }
{
    let equation = said_true(alloc, store, formula, line)?;
    let Draft {
        builder,
        current,
        next_derived,
        ..
    } = draft;
    derive(
        store,
        builder,
        current,
        &proving.around,
        next_derived,
        equation,
    )?;
    let shown = line_of_goal(alloc, store, &mut draft.builder, &draft.current)?;
    Ok(shown)
}
