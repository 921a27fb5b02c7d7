ghost use Rattle.std.specs.Prelude.{◌≡◌, All, IfErr, IfOk, List, None, Ok, OnOk, find};
ghost use Rattle.larch_derive.specs.declared.builder.Builder.{Builder as is_builder};
ghost use Rattle.larch_prove_work.specs.ProveAddingEquation.{IsSaid, sides_in};
ghost use Rattle.larch_prove_work.specs.ProveAddingKeptFacts.{AreSaid, facts_of};
ghost use Rattle.larch_prove_work.specs.ProveDraftDraft.{Leads, Stands};
ghost use Rattle.larch_prove_work.specs.ProveDraftProving.{IsOver, IsProvable};
ghost use Rattle.larch_prove_facts.specs.Derivation.{IsSomeUndone, IsUndone, Reaches};
ghost use Rattle.larch_prove_facts.specs.Instance.{MayInstantiate, instance_in, instance_settled};
ghost use Rattle.larch_prove_work.specs.ProveInvariantBook.{Kept};
ghost use Rattle.larch_prove_work.specs.ProveLevelsSupposing.{TellsCode};
ghost use Rattle.larch_prove_meaning.specs.Levels.{Proof, derived_by};
ghost use Rattle.larch_prove_meaning.specs.Steps.{carried_out, has_name, serves_beside, sides_or};
ghost use Rattle.larch_prove_work.specs.ProveSettingsTelling.{Tells};
ghost use Rattle.larch_prove_work.specs.ProveSettlingRising.{IsSomeStanding};
ghost use Rattle.larch_prove_work.specs.Work.{IsSomeWork, Makes, MayWork};
ghost use Rattle.larch_script_commands.specs.Worded.{WordedInstance};
ghost use Rattle.larch_script_commands.specs.declared.command.CommandKind.TheVariants.{Instantiate};

use crate::boxes::open_boxes;
use crate::entries::read_entries;
use crate::instance::{Asked, add_instance};
use crate::named::fact_named;
use larch_base::FactName;
use larch_prove_work::from_prove_adding::Facts;
use larch_prove_work::from_prove_draft::{Draft, Proving};
use larch_prove_work::from_prove_levels::Around;
use larch_prove_work::from_prove_settings::{CommandRefusal, Settings};
use larch_prove_work::from_prove_settling::settle;
use larch_prove_work::from_rewrite::RewriteRefusal;
use larch_prove_work::{Claim, Work, command_refusal};
use larch_script_commands::RawInstance;
use larch_store::Store;
use larch_term::Substitution;
use std::alloc::Global;

/// The command that adds an instance of a fact, while the fact itself serves as no rule, and what that leads to. A
/// refusal comes exactly where it is the defined one, or where memory runs out; then what was worked on may not be
/// used.
pub fn instantiate(
    alloc: Global,
    claim: &Claim,
    work: &mut Work,
    instances: &[RawInstance],
    fact: &FactName,
) -> Result<(), CommandRefusal>
    requires provable { IsProvable claim.now.theory claim.now.statement }
    requires works { IsSomeWork claim.now.theory claim.now.statement work.old }
    requires worded { All WordedInstance instances.now }
    ensures instantiated { OnOk result ((p : Proof) → MayWork claim.now.theory claim.now.statement work.old p
        → Makes claim.now.theory claim.now.statement work.new p (carried_out (Instantiate instances.now fact.now) p)) }
    ensures refused { IfErr result (λ refusal. (p : Proof) → MayWork claim.now.theory claim.now.statement work.old p
        → Tells (carried_out (Instantiate instances.now fact.now) p) refusal) }
{
    let facts = &work.draft.current.facts;
    let entries = read_entries(alloc, &work.settings, facts, instances, fact)?;
    let block = work.settings.constants.as_slice();
    open_boxes(alloc, &mut work.draft, block, entries.as_slice())?;
    let asked = ask(alloc, &work.draft.current.facts, fact, entries)?;
    settle_instance(alloc, claim, work, &asked)
}

// What is asked for, of the fact of a name. It is refused with FACT where none has the name.
fn ask(
    alloc: Global,
    facts: &Facts,
    fact: &FactName,
    entries: Substitution,
) -> Result<Asked, CommandRefusal>
    ensures fact { IfOk result (λ asked. asked.fact ≡ fact.now) }
    ensures entries { IfOk result (λ asked. asked.entries ≡ entries) }
    ensures named { IfOk result (λ asked. sides_or (find (has_name fact.now) (facts_of facts.now).rules)
        ≡ Ok (sides_in asked.equation)) }
    ensures refused { IfErr result (Tells (sides_or (find (has_name fact.now) (facts_of facts.now).rules))) }
    ensures said { IfOk result (λ asked. (b : is_builder) → AreSaid b facts.now → IsSaid b asked.equation) }
{
    let equation = fact_named(alloc, facts, fact)?;
    Ok(Asked {
        fact: *fact,
        equation,
        entries,
    })
}

// Adds an instance, and what that leads to.
fn settle_instance(
    alloc: Global,
    claim: &Claim,
    work: &mut Work,
    asked: &Asked,
) -> Result<(), CommandRefusal>
    requires provable { IsProvable claim.now.theory claim.now.statement }
    requires works { IsSomeUndone claim.now.theory claim.now.statement work.old }
    requires may { MayInstantiate work.old.draft.builder work.old.draft.next_derived asked.now }
    ensures made { OnOk result ((p : Proof) → IsUndone claim.now.theory claim.now.statement work.old p
        → Makes claim.now.theory claim.now.statement work.new p (instance_settled asked.now p)) }
    ensures refused { IfErr result (λ refusal. (p : Proof)
        → IsUndone claim.now.theory claim.now.statement work.old p → Tells (instance_settled asked.now p) refusal) }
{
    let Work {
        settings,
        store,
        draft,
    } = work;
    match settle_for(alloc, claim, settings, store, draft, asked) {
        Ok(()) => Ok(()),
        Err(refusal) => Err(command_refusal(refusal)),
    }
}

// The same by settings, terms and draft.
fn settle_for<'a>(
    alloc: Global,
    claim: &'a Claim,
    settings: &'a Settings,
    store: &mut Store,
    draft: &mut Draft,
    asked: &Asked,
) -> Result<(), RewriteRefusal>
    requires provable { IsProvable claim.now.theory claim.now.statement }
    requires stands { IsSomeStanding claim.now.theory claim.now.statement settings.now.precedence.value
        settings.now.limit store.old draft.old }
    requires may { MayInstantiate draft.old.builder draft.old.next_derived asked.now }
    ensures derived { OnOk result ((p : Proof) (k : Kept) (ks : List Kept)
        → IsOver claim.now.theory settings.now.precedence.value settings.now.limit p
        → Stands claim.now.theory claim.now.statement store.old draft.old p k ks
        → Leads claim.now.theory claim.now.statement store.new draft.new p None (instance_settled asked.now p)) }
    ensures refused { IfErr result (λ refusal. (p : Proof) (k : Kept) (ks : List Kept)
        → IsOver claim.now.theory settings.now.precedence.value settings.now.limit p
        → Stands claim.now.theory claim.now.statement store.old draft.old p k ks
        → TellsCode (instance_settled asked.now p) refusal) }
{
    let proving = Proving {
        theory: &claim.theory,
        statement: &claim.statement,
        around: Around {
            alloc,
            precedence: &settings.precedence,
            limit: settings.limit,
        },
    };
    derive_instance(store, &proving, draft, asked)?;
    settle(alloc, store, &proving, draft)
}

// Adds an instance to the current level's facts, and behind it the goal gets its normal form.
#[tactic(auto, using(larch_store::proofs::Growth::grows_refl))]
fn derive_instance<'a>(
    store: &mut Store,
    proving: &Proving<'a>,
    draft: &mut Draft,
    asked: &Asked,
) -> Result<(), RewriteRefusal>
    requires stands { IsSomeStanding proving.now.theory.now proving.now.statement.now
        proving.now.around.precedence.now proving.now.around.limit store.old draft.old }
    requires may { MayInstantiate draft.old.builder draft.old.next_derived asked.now }
    ensures derived { OnOk result ((p : Proof) (k : Kept) (ks : List Kept)
        → IsOver proving.now.theory.now proving.now.around.precedence.now proving.now.around.limit p
        → Stands proving.now.theory.now proving.now.statement.now store.old draft.old p k ks
        → Reaches proving.now.theory.now proving.now.statement.now store.new draft.new p
        (derived_by (serves_beside asked.now.fact) (instance_in asked.now) p)) }
    ensures refused { IfErr result (λ refusal. (p : Proof) (k : Kept) (ks : List Kept)
        → IsOver proving.now.theory.now proving.now.around.precedence.now proving.now.around.limit p
        → Stands proving.now.theory.now proving.now.statement.now store.old draft.old p k ks
        → TellsCode (derived_by (serves_beside asked.now.fact) (instance_in asked.now) p) refusal) }
{
    let Draft {
        builder,
        current,
        next_derived,
        ..
    } = draft;
    add_instance(
        store,
        builder,
        current,
        &proving.around,
        next_derived,
        asked,
    )?;
    Ok(())
}
