ghost use Rattle.std.specs.Prelude.{IfErr, List, None, OnOk};
ghost use Rattle.larch_prove_draft.specs.Draft.{Leads};
ghost use Rattle.larch_prove_draft.specs.Proving.{IsOver, IsProvable};
ghost use Rattle.larch_prove_draft.specs.ProveInvariantBook.{Kept};
ghost use Rattle.larch_prove_draft.specs.ProveLevelsSupposing.{TellsCode};
ghost use Rattle.larch_prove_draft.specs.ProveMeaningLevels as defined;
ghost use Rattle.larch_prove_draft.specs.ProveMeaningLevels.{Proof, opened_from, rise as risen};
ghost use Rattle.larch_prove_draft.specs.ProveMeaningPlans.{Subgoal as PlainSubgoal};
ghost use Rattle.larch_prove_settling.specs.Rising.{HasNoSubgoals, HasSubgoal, IsSomeEnd, IsSomeOpening};
ghost use Rattle.larch_store.specs.Stored.{Grows};

use crate::entering::Entering;
use crate::methods::{end_on, open_now};
use crate::rising::rise_on;
use larch_prove_draft::from_prove_boxes::Lefts;
use larch_prove_draft::from_prove_plans::{Method, Subgoal};
use larch_prove_draft::from_rewrite::RewriteRefusal;
use larch_prove_draft::{Draft, Proving};
use larch_store::Store;
use std::alloc::Global;

/// The first subgoal of the method that runs on the current level is opened, and what that leads to: while one is
/// proved at once the next one is opened, and behind the last the level is proved. A refusal comes exactly where it is
/// the defined one, or where memory runs out; the draft may then not be used.
#[tactic(auto, using(larch_store::proofs::Growth::grows_refl))]
pub fn open_first<'a>(
    alloc: Global,
    store: &mut Store,
    proving: &Proving<'a>,
    draft: &mut Draft,
    method: &Method,
    first: &Subgoal,
) -> Result<(), RewriteRefusal>
    requires provable { IsProvable proving.now.theory.now proving.now.statement.now }
    requires opens { IsSomeOpening proving.now.theory.now proving.now.statement.now
        proving.now.around.precedence.now proving.now.around.limit store.old draft.old method.now first.now }
    ensures leads { OnOk result ((p : Proof) (below : List defined.Level) (parent : defined.Level)
        (gs : List PlainSubgoal)
        → IsOver proving.now.theory.now proving.now.around.precedence.now proving.now.around.limit p
        → HasSubgoal proving.now.theory.now proving.now.statement.now store.old draft.old p below parent
        method.now first.now gs
        → Leads proving.now.theory.now proving.now.statement.now store.new draft.new p None
        (opened_from (λ q. risen below parent q) parent below gs p)) }
    ensures refused { IfErr result (λ refusal. (p : Proof) (below : List defined.Level) (parent : defined.Level)
        (gs : List PlainSubgoal)
        → IsOver proving.now.theory.now proving.now.around.precedence.now proving.now.around.limit p
        → HasSubgoal proving.now.theory.now proving.now.statement.now store.old draft.old p below parent
        method.now first.now gs
        → TellsCode (opened_from (λ q. risen below parent q) parent below gs p) refusal) }
    ensures grows { Grows store.old store.new }
{
    let entering = Entering {
        method,
        subgoal: first,
    };
    let shown = open_now(alloc, store, proving, draft, &entering)?;
    rise_on(alloc, store, proving, draft, shown)
}

/// A method that was planned for the current goal has no subgoals: it ends at once, so the current level is proved, and
/// what that leads to. A refusal comes exactly where it is the defined one, or where memory runs out; the draft may
/// then not be used.
#[tactic(auto, using(larch_store::proofs::Growth::grows_refl))]
pub fn end_at_once<'a>(
    alloc: Global,
    store: &mut Store,
    proving: &Proving<'a>,
    draft: &mut Draft,
    method: &Method,
) -> Result<(), RewriteRefusal>
    requires provable { IsProvable proving.now.theory.now proving.now.statement.now }
    requires ends { IsSomeEnd proving.now.theory.now proving.now.statement.now
        proving.now.around.precedence.now proving.now.around.limit store.old draft.old method.now }
    ensures leads { OnOk result ((p : Proof) (k : Kept) (ks : List Kept)
        → IsOver proving.now.theory.now proving.now.around.precedence.now proving.now.around.limit p
        → HasNoSubgoals proving.now.theory.now proving.now.statement.now store.old draft.old p k ks method.now
        → Leads proving.now.theory.now proving.now.statement.now store.new draft.new p None
        (risen p.below p.current p)) }
    ensures refused { IfErr result (λ refusal. (p : Proof) (k : Kept) (ks : List Kept)
        → IsOver proving.now.theory.now proving.now.around.precedence.now proving.now.around.limit p
        → HasNoSubgoals proving.now.theory.now proving.now.statement.now store.old draft.old p k ks method.now
        → TellsCode (risen p.below p.current p) refusal) }
    ensures grows { Grows store.old store.new }
{
    let lefts = Lefts {
        shared: None,
        subgoals: &[],
    };
    let line = end_on(
        store,
        proving,
        &mut draft.builder,
        &draft.current.goal,
        method,
        &lefts,
    )?;
    rise_on(alloc, store, proving, draft, Some(line))
}
