ghost use Rattle.std.specs.Prelude.{◌≡◌, [], IfErr, IfOk, List, None, OnOk};
ghost use Rattle.larch_prove_work.specs.ProveDraftDraft.{Leads};
ghost use Rattle.larch_prove_work.specs.ProveDraftProving.{IsOver, IsProvable};
ghost use Rattle.larch_prove_work.specs.ProveInvariantBook.{Kept};
ghost use Rattle.larch_prove_work.specs.ProveLevelsSupposing.{TellsCode};
ghost use Rattle.larch_prove_meaning.specs.Levels.{Proof, all_constants, begun, with_constants};
ghost use Rattle.larch_prove_meaning.specs.Plans.{Plan};
ghost use Rattle.larch_prove_resuming.specs.Resuming.{IsSomeStart, StandsBefore};

use larch_base::{Memory, Sequence};
use larch_prove_work::Claim;
use larch_prove_work::from_derive::OpenBox;
use larch_prove_work::from_prove_boxes::open_shared;
use larch_prove_work::from_prove_draft::{Draft, Proving};
use larch_prove_work::from_prove_levels::{Around, Planned, Running};
use larch_prove_work::from_prove_settings::Settings;
use larch_prove_work::from_prove_settling::{end_at_once, open_first};
use larch_prove_work::from_rewrite::RewriteRefusal;
use larch_store::Store;
use std::alloc::Global;
use std::rc::Rc;

// A method that was planned for the current goal begins, whose constants the settings have already.
pub(crate) fn begin<'a>(
    alloc: Global,
    claim: &'a Claim,
    settings: &'a Settings,
    store: &mut Store,
    draft: &mut Draft,
    planned: Planned,
) -> Result<(), RewriteRefusal>
    requires provable { IsProvable claim.now.theory claim.now.statement }
    requires stands { IsSomeStart claim.now.theory claim.now.statement settings.now.precedence.value
        settings.now.limit store.old draft.old planned }
    ensures begun { OnOk result ((p : Proof) (k : Kept) (ks : List Kept) (made : Plan)
        → IsOver claim.now.theory settings.now.precedence.value settings.now.limit
        (with_constants (all_constants made) p)
        → StandsBefore claim.now.theory claim.now.statement store.old draft.old p k ks planned made
        → Leads claim.now.theory claim.now.statement store.new draft.new (with_constants (all_constants made) p) None
        (begun made p)) }
    ensures refused { IfErr result (λ refusal. (p : Proof) (k : Kept) (ks : List Kept) (made : Plan)
        → IsOver claim.now.theory settings.now.precedence.value settings.now.limit
        (with_constants (all_constants made) p)
        → StandsBefore claim.now.theory claim.now.statement store.old draft.old p k ks planned made
        → TellsCode (begun made p) refusal) }
{
    let proving = Proving {
        theory: &claim.theory,
        statement: &claim.statement,
        around: Around {
            alloc,
            precedence: &settings.precedence,
            limit: settings.limit,
        },
    };
    begin_on(alloc, store, &proving, draft, planned)
}

// The same by what a proof is of: the box that the subgoals share is opened, and the subgoals are opened in turn.
fn begin_on<'a>(
    alloc: Global,
    store: &mut Store,
    proving: &Proving<'a>,
    draft: &mut Draft,
    planned: Planned,
) -> Result<(), RewriteRefusal>
    requires provable { IsProvable proving.now.theory.now proving.now.statement.now }
    requires stands { IsSomeStart proving.now.theory.now proving.now.statement.now
        proving.now.around.precedence.now proving.now.around.limit store.old draft.old planned }
    ensures begun { OnOk result ((p : Proof) (k : Kept) (ks : List Kept) (made : Plan)
        → IsOver proving.now.theory.now proving.now.around.precedence.now proving.now.around.limit
        (with_constants (all_constants made) p)
        → StandsBefore proving.now.theory.now proving.now.statement.now store.old draft.old p k ks planned made
        → Leads proving.now.theory.now proving.now.statement.now store.new draft.new
        (with_constants (all_constants made) p) None (begun made p)) }
    ensures refused { IfErr result (λ refusal. (p : Proof) (k : Kept) (ks : List Kept) (made : Plan)
        → IsOver proving.now.theory.now proving.now.around.precedence.now proving.now.around.limit
        (with_constants (all_constants made) p)
        → StandsBefore proving.now.theory.now proving.now.statement.now store.old draft.old p k ks planned made
        → TellsCode (begun made p) refusal) }
{
    let planned = Rc::new(alloc, planned)?;
    let Some(first) = planned.plan.subgoals.as_slice().first() else {
        return end_at_once(alloc, store, proving, draft, &planned.method);
    };
    let shared = open_shared(alloc, &mut draft.builder, &planned.method, &planned.plan)?;
    let running = run_with(alloc, &planned, shared)?;
    draft.current.running = Some(running);
    open_first(alloc, store, proving, draft, &planned.method, first)
}

// A method runs in the box that its subgoals share, and none of these was left.
fn run_with(
    alloc: Global,
    planned: &Rc<Planned>,
    shared: Option<OpenBox>,
) -> Result<Running, Memory>
    ensures planned { IfOk result (λ running. running.planned.value ≡ planned.now.value) }
    ensures shared { IfOk result (λ running. running.shared ≡ shared) }
    ensures left { IfOk result (λ running. running.left ≡ []) }
{
    let planned = planned.clone()?;
    Ok(Running {
        planned,
        shared,
        left: Sequence::new(alloc),
    })
}
