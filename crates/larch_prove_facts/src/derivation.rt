ghost use Rattle.std.specs.Prelude.{◌≡◌, All, IfErr, IfOk, List, None, OnOk, map};
ghost use Rattle.larch_derive.specs.Predicates.{Extends};
ghost use Rattle.larch_prove_work.specs.ProveAddingEquation.{IsSaid, sides_in};
ghost use Rattle.larch_prove_work.specs.ProveDraftDraft.{Leads, Stands};
ghost use Rattle.larch_prove_work.specs.ProveDraftProving.{IsOver, IsProvable};
ghost use Rattle.larch_prove_facts.specs.Derivation.{IsSomeUndone, IsUndone, Reaches, all_settled};
ghost use Rattle.larch_prove_work.specs.ProveInvariantBook.{Kept};
ghost use Rattle.larch_prove_work.specs.ProveLevelsLevel.{IsReady, IsStored};
ghost use Rattle.larch_prove_work.specs.ProveLevelsSupposing.{TellsCode};
ghost use Rattle.larch_prove_meaning.specs.Levels.{Proof, derive as derived, is_settled};
ghost use Rattle.larch_prove_meaning.specs.Steps.{all_derived};
ghost use Rattle.larch_prove_work.specs.ProveSettingsTelling.{Tells};
ghost use Rattle.larch_prove_work.specs.ProveSettlingRising.{IsSomeStanding};
ghost use Rattle.larch_prove_work.specs.Work.{Makes};
ghost use Rattle.larch_store.specs.Stored.{Grows};
ghost use Rattle.larch_term.specs.declared.statement.Statement.{Statement as is_statement};
ghost use Rattle.larch_term.specs.declared.statement.Theory.{Theory as is_theory};

use larch_base::Memory;
use larch_prove_work::from_prove_adding::SaidEquation;
use larch_prove_work::from_prove_draft::{Draft, Proving};
use larch_prove_work::from_prove_levels::{Around, derive, line_of_goal};
use larch_prove_work::from_prove_settings::{CommandRefusal, Settings};
use larch_prove_work::from_prove_settling::settle;
use larch_prove_work::from_rewrite::RewriteRefusal;
use larch_prove_work::{Claim, Work, command_refusal};
use larch_store::Store;
use std::alloc::Global;

// Adds equations that lines say to the current level's facts in turn, until the goal is proved, and what that leads to.
// A refusal comes exactly where it is the defined one, or where memory runs out; then what was worked on may not be
// used.
pub(crate) fn derive_facts(
    alloc: Global,
    claim: &Claim,
    work: &mut Work,
    equations: Vec<SaidEquation>,
) -> Result<(), CommandRefusal>
    requires provable { IsProvable claim.now.theory claim.now.statement }
    requires works { IsSomeUndone claim.now.theory claim.now.statement work.old }
    requires said { All (IsSaid work.old.draft.builder) equations.items }
    ensures made { OnOk result ((p : Proof) → IsUndone claim.now.theory claim.now.statement work.old p
        → Makes claim.now.theory claim.now.statement work.new p (all_settled (map sides_in equations.items) p)) }
    ensures refused { IfErr result (λ refusal. (p : Proof)
        → IsUndone claim.now.theory claim.now.statement work.old p
        → Tells (all_settled (map sides_in equations.items) p) refusal) }
{
    let Work {
        settings,
        store,
        draft,
    } = work;
    match derive_for(alloc, claim, settings, store, draft, equations) {
        Ok(()) => Ok(()),
        Err(refusal) => Err(command_refusal(refusal)),
    }
}

// The same by settings, terms and draft.
fn derive_for<'a>(
    alloc: Global,
    claim: &'a Claim,
    settings: &'a Settings,
    store: &mut Store,
    draft: &mut Draft,
    equations: Vec<SaidEquation>,
) -> Result<(), RewriteRefusal>
    requires provable { IsProvable claim.now.theory claim.now.statement }
    requires stands { IsSomeStanding claim.now.theory claim.now.statement settings.now.precedence.value
        settings.now.limit store.old draft.old }
    requires said { All (IsSaid draft.old.builder) equations.items }
    ensures derived { OnOk result ((p : Proof) (k : Kept) (ks : List Kept)
        → IsOver claim.now.theory settings.now.precedence.value settings.now.limit p
        → Stands claim.now.theory claim.now.statement store.old draft.old p k ks
        → Leads claim.now.theory claim.now.statement store.new draft.new p None
        (all_settled (map sides_in equations.items) p)) }
    ensures refused { IfErr result (λ refusal. (p : Proof) (k : Kept) (ks : List Kept)
        → IsOver claim.now.theory settings.now.precedence.value settings.now.limit p
        → Stands claim.now.theory claim.now.statement store.old draft.old p k ks
        → TellsCode (all_settled (map sides_in equations.items) p) refusal) }
{
    let proving = Proving {
        theory: &claim.theory,
        statement: &claim.statement,
        around: Around {
            alloc,
            precedence: &settings.precedence,
            limit: settings.limit,
        },
    };
    derive_all(alloc, store, &proving, draft, equations)?;
    settle(alloc, store, &proving, draft)
}

// Adds equations in turn, until the goal is proved.
fn derive_all<'a>(
    alloc: Global,
    store: &mut Store,
    proving: &Proving<'a>,
    draft: &mut Draft,
    equations: Vec<SaidEquation>,
) -> Result<(), RewriteRefusal>
    requires stands { IsSomeStanding proving.now.theory.now proving.now.statement.now
        proving.now.around.precedence.now proving.now.around.limit store.old draft.old }
    requires said { All (IsSaid draft.old.builder) equations.items }
    ensures derived { OnOk result ((p : Proof) (k : Kept) (ks : List Kept)
        → IsOver proving.now.theory.now proving.now.around.precedence.now proving.now.around.limit p
        → Stands proving.now.theory.now proving.now.statement.now store.old draft.old p k ks
        → Reaches proving.now.theory.now proving.now.statement.now store.new draft.new p
        (all_derived (map sides_in equations.items) p)) }
    ensures refused { IfErr result (λ refusal. (p : Proof) (k : Kept) (ks : List Kept)
        → IsOver proving.now.theory.now proving.now.around.precedence.now proving.now.around.limit p
        → Stands proving.now.theory.now proving.now.statement.now store.old draft.old p k ks
        → TellsCode (all_derived (map sides_in equations.items) p) refusal) }
{
    for equation in equations {
        derive_one(store, proving, draft, equation)?;
        let proved = is_proved(alloc, store, draft)?;
        if proved {
            return Ok(());
        }
    }
    Ok(())
}

// Adds one equation to the current level's facts, and behind it the goal gets its normal form.
#[tactic(auto, using(larch_store::proofs::Growth::grows_refl))]
fn derive_one<'a>(
    store: &mut Store,
    proving: &Proving<'a>,
    draft: &mut Draft,
    equation: SaidEquation,
) -> Result<(), RewriteRefusal>
    requires stands { IsSomeStanding proving.now.theory.now proving.now.statement.now
        proving.now.around.precedence.now proving.now.around.limit store.old draft.old }
    requires said { IsSaid draft.old.builder equation }
    ensures derived { OnOk result ((p : Proof) (k : Kept) (ks : List Kept)
        → IsOver proving.now.theory.now proving.now.around.precedence.now proving.now.around.limit p
        → Stands proving.now.theory.now proving.now.statement.now store.old draft.old p k ks
        → Reaches proving.now.theory.now proving.now.statement.now store.new draft.new p
        (derived (sides_in equation) p)) }
    ensures refused { IfErr result (λ refusal. (p : Proof) (k : Kept) (ks : List Kept)
        → IsOver proving.now.theory.now proving.now.around.precedence.now proving.now.around.limit p
        → Stands proving.now.theory.now proving.now.statement.now store.old draft.old p k ks
        → TellsCode (derived (sides_in equation) p) refusal) }
    ensures extends { Extends draft.old.builder draft.new.builder }
{
    let Draft {
        builder,
        current,
        next_derived,
        ..
    } = draft;
    derive(
        store,
        builder,
        current,
        &proving.around,
        next_derived,
        equation,
    )?;
    Ok(())
}

// Whether the current goal is proved.
fn is_proved(alloc: Global, store: &Store, draft: &mut Draft) -> Result<bool, Memory>
    requires ready { IsReady store.now draft.old.builder draft.old.current }
    requires stored { IsStored store.now draft.old.current }
    ensures told { IfOk result (λ told. (t : is_theory) (s : is_statement) (p : Proof) (k : Kept) (ks : List Kept)
        → Stands t s store.now draft.old p k ks → is_settled p.current ≡ told) }
    ensures stands { OnOk result ((t : is_theory) (s : is_statement) (p : Proof) (k : Kept) (ks : List Kept)
        → Stands t s store.now draft.old p k ks → Stands t s store.now draft.new p k ks) }
    ensures extends { Extends draft.old.builder draft.new.builder }
{
    let shown = line_of_goal(alloc, store, &mut draft.builder, &draft.current)?;
    Ok(shown.is_some())
}
