ghost use Rattle.std.specs.Option.{option_copied};
ghost use Rattle.std.specs.Prelude.{◌≡◌, ◌++◌, ◌+◌, ◌*◌, ◌∷◌, ◌<◌, [], IfErr, IfOk, IfSome, IsSome, List, OnOk, Some};
ghost use Rattle.std.specs.Prelude.{length, map, option_map, slice_get};
ghost use Rattle.larch_derive.specs.Builder.{theory_in};
ghost use Rattle.larch_derive.specs.Predicates.{HasEquation};
ghost use Rattle.larch_derive.specs.declared.builder.Builder.{Builder as is_builder};
ghost use Rattle.larch_prove_draft.specs.ProveBoxesBoxLists.{box_list, boxes_with};
ghost use Rattle.larch_prove_draft.specs.ProveBoxesEnds.{AreLeft};
ghost use Rattle.larch_prove_draft.specs.ProveBoxesLeave.{left_of};
ghost use Rattle.larch_prove_draft.specs.ProveBoxesSaying.{ShowsSubgoal};
ghost use Rattle.larch_prove_draft.specs.ProveInvariantBook.{Kept, Running as Runs};
ghost use Rattle.larch_prove_draft.specs.ProveInvariantEnding.{StandsAt};
ghost use Rattle.larch_prove_draft.specs.ProveInvariantHolding.{HasLeft};
ghost use Rattle.larch_prove_draft.specs.ProveInvariantLeaving.{Leaving};
ghost use Rattle.larch_prove_draft.specs.Draft.{Leads, below_in};
ghost use Rattle.larch_prove_draft.specs.Proving.{IsOver, IsProvable};
ghost use Rattle.larch_prove_settling.specs.Rising.{EndsWith, FollowsWith, HasSubgoal, IsNoted, IsRunning, IsSomeLeft};
ghost use Rattle.larch_prove_settling.specs.Rising.{IsSomeNext, IsSomeOpening, IsSomeSubgoal, RisesForSubgoal};
ghost use Rattle.larch_prove_settling.specs.Rising.{to_settle, unleft};
ghost use Rattle.larch_prove_draft.specs.ProveLevelsSupposing.{TellsCode};
ghost use Rattle.larch_prove_draft.specs.ProveMeaningLevels as defined;
ghost use Rattle.larch_prove_draft.specs.ProveMeaningLevels.{Proof, opened_from, rise as risen};
ghost use Rattle.larch_prove_draft.specs.ProveMeaningPlans.{Subgoal as PlainSubgoal};
ghost use Rattle.larch_prove_draft.specs.ProvePlansPlanning.{method_of, subgoal_of};
ghost use Rattle.larch_prove_draft.specs.RewriteRefusalRewriteRefusal.TheVariants.{Memory as wants_memory};
ghost use Rattle.larch_store.specs.Numbered.{term_of};
ghost use Rattle.larch_store.specs.Stored.{Grows};
ghost use Rattle.larch_term.specs.Operator.{PlainOperator};
ghost use Rattle.larch_term.specs.Statement.{IsWellSortedTheory};
ghost use Rattle.larch_term.specs.Truth.{truth};
ghost use Rattle.larch_term.specs.declared.statement.Statement.{Statement as is_statement};
ghost use Rattle.larch_term.specs.declared.statement.Theory.{Theory as is_theory};

use crate::entering::{Entering, open_subgoal};
use larch_base::{Memory, let_go};
use larch_derive::{Builder, OpenBox};
use larch_prove_draft::from_derive_lines::push_trans;
use larch_prove_draft::from_prove_adding::LevelGoal;
use larch_prove_draft::from_prove_boxes::{Leave, Lefts, end_method, leave_subgoal};
use larch_prove_draft::from_prove_levels::{Level, Planned, Running, line_of_goal};
use larch_prove_draft::from_prove_plans::{Method, Subgoal};
use larch_prove_draft::from_rewrite::RewriteRefusal;
use larch_prove_draft::{Draft, Proving, mark};
use larch_store::Store;
use std::alloc::Global;
use std::mem::replace;
use std::rc::Rc;

// A subgoal is proved, as a line says: it is left, and the next one is opened, or the method ends.
#[tactic(auto, using(larch_store::proofs::Growth::grows_refl))]
pub(crate) fn follow<'a>(
    alloc: Global,
    store: &mut Store,
    proving: &Proving<'a>,
    draft: &mut Draft,
    entrance: Option<OpenBox>,
    line: u64,
) -> Result<Option<u64>, RewriteRefusal>
    requires provable { IsProvable proving.now.theory.now proving.now.statement.now }
    requires rises { IsSomeSubgoal proving.now.theory.now proving.now.statement.now
        proving.now.around.precedence.now proving.now.around.limit store.old draft.old entrance line }
    ensures leads { IfOk result (λ shown. (p : Proof) (below : List defined.Level) (parent level : defined.Level)
        → IsOver proving.now.theory.now proving.now.around.precedence.now proving.now.around.limit p
        → RisesForSubgoal proving.now.theory.now proving.now.statement.now store.old draft.old p below parent level
        entrance line
        → Leads proving.now.theory.now proving.now.statement.now store.new draft.new p shown
        (opened_from (λ q. risen below parent q) parent below parent.remaining p)) }
    ensures refused { IfErr result (λ refusal. (p : Proof) (below : List defined.Level) (parent level : defined.Level)
        → IsOver proving.now.theory.now proving.now.around.precedence.now proving.now.around.limit p
        → RisesForSubgoal proving.now.theory.now proving.now.statement.now store.old draft.old p below parent level
        entrance line
        → TellsCode (opened_from (λ q. risen below parent q) parent below parent.remaining p) refusal) }
    ensures falls { IfOk result (λ shown. IfSome shown (λ _. to_settle (below_in draft.new)
        < 1 + 2 * unleft draft.old.current.running + to_settle (below_in draft.old))) }
    ensures grows { Grows store.old store.new }
{
    let (planned, place) = open_place(draft.current.running.as_ref())?;
    let upper = Upper {
        place,
        entrance,
        line,
    };
    go_on(alloc, store, proving, draft, &planned, upper)
}

// The same by what runs on the level, and the place of the open subgoal.
#[tactic(auto, using(larch_store::proofs::Growth::grows_refl))]
fn go_on<'a>(
    alloc: Global,
    store: &mut Store,
    proving: &Proving<'a>,
    draft: &mut Draft,
    planned: &Planned,
    upper: Upper,
) -> Result<Option<u64>, RewriteRefusal>
    requires provable { IsProvable proving.now.theory.now proving.now.statement.now }
    requires rises { IsSomeSubgoal proving.now.theory.now proving.now.statement.now
        proving.now.around.precedence.now proving.now.around.limit store.old draft.old upper.entrance upper.line }
    requires runs { IsRunning planned.now upper.place draft.old.current.running }
    ensures leads { IfOk result (λ shown. (p : Proof) (below : List defined.Level) (parent level : defined.Level)
        → IsOver proving.now.theory.now proving.now.around.precedence.now proving.now.around.limit p
        → RisesForSubgoal proving.now.theory.now proving.now.statement.now store.old draft.old p below parent level
        upper.entrance upper.line
        → Leads proving.now.theory.now proving.now.statement.now store.new draft.new p shown
        (opened_from (λ q. risen below parent q) parent below parent.remaining p)) }
    ensures refused { IfErr result (λ refusal. (p : Proof) (below : List defined.Level) (parent level : defined.Level)
        → IsOver proving.now.theory.now proving.now.around.precedence.now proving.now.around.limit p
        → RisesForSubgoal proving.now.theory.now proving.now.statement.now store.old draft.old p below parent level
        upper.entrance upper.line
        → TellsCode (opened_from (λ q. risen below parent q) parent below parent.remaining p) refusal) }
    ensures falls { IfOk result (λ shown. IfSome shown (λ _. to_settle (below_in draft.new)
        < 1 + 2 * unleft draft.old.current.running + to_settle (below_in draft.old))) }
    ensures grows { Grows store.old store.new }
{
    let Upper {
        place,
        entrance,
        line,
    } = upper;
    let left = leave(alloc, &mut draft.builder, planned, place, entrance, line)?;
    let subgoals = planned.plan.subgoals.as_slice();
    let next = subgoals.len().min(place.saturating_add(1));
    match subgoals.get(next) {
        Some(subgoal) => {
            let entering = Entering {
                method: &planned.method,
                subgoal,
            };
            open_next(alloc, store, proving, draft, &entering, left)
        }
        None => end(store, proving, draft, &planned.method, left),
    }
}

// How a subgoal was proved: which of the plan it is, the box by which its level was entered, and the line that says it.
#[derive(Drop)]
struct Upper {
    place: usize,
    entrance: Option<OpenBox>,
    line: u64,
}

// What runs on a level, and which of its subgoals is open.
fn open_place(running: Option<&Running>) -> Result<(Rc<Planned>, usize), Memory>
    requires { IsSome (option_copied running) }
    ensures { IfOk result (λ found. IsRunning found.0.value found.1 (option_copied running.entry)) }
{
    let Some(running) = running else {
        unreachable!()
    };
    let planned = running.planned.clone()?;
    Ok((planned, running.left.as_slice().len()))
}

// The open subgoal is left, by a line that says that its goal is true.
fn leave(
    alloc: Global,
    builder: &mut Builder,
    planned: &Planned,
    place: usize,
    entrance: Option<OpenBox>,
    line: u64,
) -> Result<Leave, Memory>
    requires { place < length planned.now.plan.subgoals }
    ensures { IfOk result (λ left. (t : is_theory) (s : is_statement) (a : is_builder) (cs : List PlainOperator)
        (levels : List defined.Level) (k j : Kept) (ks : List Kept) (r : Runs)
        → ShowsSubgoal t s a builder.old cs levels k j ks r line → r.method ≡ method_of planned.now.method
        → slice_get planned.now.plan.subgoals place ≡ Some (subgoal_of r.now)
        → boxes_with k.book.entrance ≡ box_list entrance
        → HasLeft builder.new r.method r.now (left_of left) × Leaving t s builder.new [] (j ∷ ks)) }
{
    let Some(subgoal) = planned.plan.subgoals.as_slice().get(place) else {
        unreachable!()
    };
    leave_subgoal(alloc, builder, &planned.method, subgoal, entrance, line)
}

// A subgoal was left, and the next one is opened. Where it is proved at once, a line says so.
#[tactic(auto, using(larch_store::proofs::Growth::grows_refl))]
fn open_next<'a>(
    alloc: Global,
    store: &mut Store,
    proving: &Proving<'a>,
    draft: &mut Draft,
    entering: &Entering<'_>,
    left: Leave,
) -> Result<Option<u64>, RewriteRefusal>
    requires follows { IsSomeNext proving.now.theory.now proving.now.statement.now
        proving.now.around.precedence.now proving.now.around.limit store.old draft.old
        entering.now.method.now entering.now.subgoal.now left }
    requires room { 0 < unleft draft.old.current.running }
    ensures leads { IfOk result (λ shown. (p : Proof) (below : List defined.Level) (parent : defined.Level)
        → IsOver proving.now.theory.now proving.now.around.precedence.now proving.now.around.limit p
        → FollowsWith proving.now.theory.now proving.now.statement.now store.old draft.old p below parent
        entering.now.method.now entering.now.subgoal.now left
        → Leads proving.now.theory.now proving.now.statement.now store.new draft.new p shown
        (opened_from (λ q. risen below parent q) parent below parent.remaining p)) }
    ensures refused { IfErr result (λ refusal. (p : Proof) (below : List defined.Level) (parent : defined.Level)
        → IsOver proving.now.theory.now proving.now.around.precedence.now proving.now.around.limit p
        → FollowsWith proving.now.theory.now proving.now.statement.now store.old draft.old p below parent
        entering.now.method.now entering.now.subgoal.now left
        → TellsCode (opened_from (λ q. risen below parent q) parent below parent.remaining p) refusal) }
    ensures falls { IfOk result (λ shown. IfSome shown (λ _. to_settle (below_in draft.new)
        < 1 + 2 * unleft draft.old.current.running + to_settle (below_in draft.old))) }
    ensures grows { Grows store.old store.new }
{
    note_left(&mut draft.current.running, left)?;
    open_now(alloc, store, proving, draft, entering)
}

// The open subgoal of the method that runs on the current level gets a level of its own. Where that is proved at once,
// a line says so.
#[tactic(auto, using(larch_store::proofs::Growth::grows_refl))]
pub(crate) fn open_now<'a>(
    alloc: Global,
    store: &mut Store,
    proving: &Proving<'a>,
    draft: &mut Draft,
    entering: &Entering<'_>,
) -> Result<Option<u64>, RewriteRefusal>
    requires opens { IsSomeOpening proving.now.theory.now proving.now.statement.now
        proving.now.around.precedence.now proving.now.around.limit store.old draft.old
        entering.now.method.now entering.now.subgoal.now }
    ensures leads { IfOk result (λ shown. (p : Proof) (below : List defined.Level) (parent : defined.Level)
        (gs : List PlainSubgoal)
        → IsOver proving.now.theory.now proving.now.around.precedence.now proving.now.around.limit p
        → HasSubgoal proving.now.theory.now proving.now.statement.now store.old draft.old p below parent
        entering.now.method.now entering.now.subgoal.now gs
        → Leads proving.now.theory.now proving.now.statement.now store.new draft.new p shown
        (opened_from (λ q. risen below parent q) parent below gs p)) }
    ensures refused { IfErr result (λ refusal. (p : Proof) (below : List defined.Level) (parent : defined.Level)
        (gs : List PlainSubgoal)
        → IsOver proving.now.theory.now proving.now.around.precedence.now proving.now.around.limit p
        → HasSubgoal proving.now.theory.now proving.now.statement.now store.old draft.old p below parent
        entering.now.method.now entering.now.subgoal.now gs
        → TellsCode (opened_from (λ q. risen below parent q) parent below gs p) refusal) }
    ensures below { OnOk result (below_in draft.new ≡ draft.old.current ∷ below_in draft.old) }
    ensures grows { Grows store.old store.new }
{
    mark(draft.checking, &mut draft.waiting, false)?;
    let Draft {
        builder,
        current,
        next_hypothesis,
        ..
    } = draft;
    let level = open_subgoal(
        store,
        builder,
        current,
        entering,
        &proving.around,
        next_hypothesis,
    )?;
    push_level(alloc, &mut draft.current, &mut draft.below, level)?;
    let shown = line_of_goal(alloc, store, &mut draft.builder, &draft.current)?;
    Ok(shown)
}

// Puts a level upon the others.
fn push_level(
    alloc: Global,
    current: &mut Level,
    below: &mut Vec<Rc<Level>>,
    level: Level,
) -> Result<(), Memory>
    ensures current { OnOk result (current.new ≡ level) }
    ensures below { OnOk result (map (λ one. one.value) below.new.items
        ≡ map (λ one. one.value) below.old.items ++ current.old ∷ []) }
{
    let parent = replace(current, level);
    let parent = Rc::new(alloc, parent)?;
    below.push(parent)?;
    Ok(())
}

// Notes how the open subgoal was left.
fn note_left(running: &mut Option<Running>, left: Leave) -> Result<(), Memory>
    requires { IsSome running.old }
    ensures { OnOk result (IsNoted left running.old running.new) }
{
    let Some(mut noted) = running.take() else {
        unreachable!()
    };
    match noted.left.push(left) {
        Ok(()) => {
            *running = Some(noted);
            Ok(())
        }
        Err(memory) => Err(let_go(memory, noted)),
    }
}

// The last subgoal was left: the method ends, and its goal is true.
#[tactic(auto, using(larch_store::proofs::Growth::grows_refl))]
fn end<'a>(
    store: &Store,
    proving: &Proving<'a>,
    draft: &mut Draft,
    method: &Method,
    left: Leave,
) -> Result<Option<u64>, RewriteRefusal>
    requires provable { IsProvable proving.now.theory.now proving.now.statement.now }
    requires follows { IsSomeLeft proving.now.theory.now proving.now.statement.now
        proving.now.around.precedence.now proving.now.around.limit store.now draft.old method.now left }
    ensures leads { IfOk result (λ shown. (p : Proof) (below : List defined.Level) (parent : defined.Level)
        → IsOver proving.now.theory.now proving.now.around.precedence.now proving.now.around.limit p
        → EndsWith proving.now.theory.now proving.now.statement.now store.now draft.old p below parent method.now left
        → Leads proving.now.theory.now proving.now.statement.now store.now draft.new p shown (risen below parent p)) }
    ensures refused { IfErr result (λ refusal. refusal ≡ wants_memory) }
    ensures below { below_in draft.new ≡ below_in draft.old }
{
    note_left(&mut draft.current.running, left)?;
    let Some(running) = &draft.current.running else {
        unreachable!()
    };
    let lefts = Lefts {
        shared: running.shared.as_ref(),
        subgoals: running.left.as_slice(),
    };
    let line = end_on(
        store,
        proving,
        &mut draft.builder,
        &draft.current.goal,
        method,
        &lefts,
    )?;
    Ok(Some(line))
}

// The method of a level ends, all subgoals of which were left so: a line says that the level's first goal is true.
pub(crate) fn end_on<'a>(
    store: &Store,
    proving: &Proving<'a>,
    builder: &mut Builder,
    goal: &LevelGoal,
    method: &Method,
    lefts: &Lefts<'_>,
) -> Result<u64, Memory>
    requires left { (a : is_builder) × AreLeft a builder.old (method_of method.now) (term_of goal.now.term)
        (option_map (λ x. x.now) lefts.now.shared) lefts.now.subgoals.now }
    requires theory { proving.now.theory.now ≡ theory_in builder.old }
    requires sorted { IsWellSortedTheory proving.now.theory.now }
    ensures { IfOk result (λ line. (t : is_theory) (s : is_statement) (a : is_builder) (k : Kept) (ks : List Kept)
        → k.level.goal ≡ term_of goal.now.term → k.book.way ≡ goal.now.way
        → AreLeft a builder.old (method_of method.now) (term_of goal.now.term)
        (option_map (λ x. x.now) lefts.now.shared) lefts.now.subgoals.now
        → StandsAt t s a k ks → StandsAt t s builder.new k ks × HasEquation builder.new line k.book.first truth) }
{
    let alloc = proving.around.alloc;
    let term = store.to_term(&goal.term)?;
    let said = end_method(alloc, builder, proving.theory, method, &term, lefts)?;
    push_trans(alloc, builder, goal.way, said)
}
