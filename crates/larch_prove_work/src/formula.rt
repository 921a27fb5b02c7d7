ghost use Rattle.std.specs.Prelude.{◌≡◌, ◌++◌, ◌∷◌, [], IfErr, IfOk, List, None, Ok, OnOk, map};
ghost use Rattle.larch_derive.specs.Predicates.{Extends, HasEquation};
ghost use Rattle.larch_prove_settling.specs.ProveAddingKeptFacts.{facts_of};
ghost use Rattle.larch_prove_settling.specs.ProveDraftDraft.{Leads, Stands};
ghost use Rattle.larch_prove_settling.specs.ProveDraftProving.{IsOver, IsProvable};
ghost use Rattle.larch_prove_settling.specs.ProveInvariantBook.{Kept};
ghost use Rattle.larch_prove_settling.specs.ProveLevelsLevel.{IsReady};
ghost use Rattle.larch_prove_settling.specs.ProveLevelsSupposing.{TellsCode};
ghost use Rattle.larch_prove_settings.specs.ProveMeaningFacts.{rules_of};
ghost use Rattle.larch_prove_settings.specs.ProveMeaningLevels.{Proof, work_result};
ghost use Rattle.larch_prove_settings.specs.ProveMeaningSteps.{carried_out, level_opened};
ghost use Rattle.larch_prove_settings.specs.Telling.{Tells};
ghost use Rattle.larch_prove_work.specs.Formula.{IsForFormula, IsSomeFormula, IsSomeProvable, IsWorkForFormula};
ghost use Rattle.larch_prove_work.specs.Formula.{IsWritten, MayProve, SaysFacts};
ghost use Rattle.larch_prove_work.specs.Work.{IsSomeWork, Makes, MayWork};
ghost use Rattle.larch_script_commands.specs.declared.command.CommandKind.TheVariants.{Prove};
ghost use Rattle.larch_prove_settings.specs.RewriteMeaningNormalForm.{normal};
ghost use Rattle.larch_store.specs.Numbered.{Numbered, term_of};
ghost use Rattle.larch_store.specs.Stored.{Belongs, Grows};
ghost use Rattle.larch_term.specs.declared.statement.Statement.{Statement as is_statement};
ghost use Rattle.larch_term.specs.declared.statement.Theory.{Theory as is_theory};

use crate::boxes::open_boxes_for;
use crate::refusal::command_refusal;
use crate::work::{Claim, Work};
use larch_base::{Memory, Sequence};
use larch_derive::Builder;
use larch_prove_settings::{CommandRefusal, ReadSides, Settings};
use larch_prove_settling::from_derive_lines::push_refl;
use larch_prove_settling::from_prove_adding::LevelGoal;
use larch_prove_settling::from_prove_draft::{Draft, Proving};
use larch_prove_settling::from_prove_levels::{Around, Level, Purpose, normalise_goal};
use larch_prove_settling::from_prove_plans::formula;
use larch_prove_settling::from_rewrite::RewriteRefusal;
use larch_prove_settling::settle;
use larch_raw::RawEquation;
use larch_store::Store;
use larch_term::{Operator, Term};
use std::alloc::Global;
use std::mem::replace;
use std::rc::Rc;

/// The command that proves an equation or a formula: a level for it, and what that leads to where it is proved at once.
/// A refusal comes exactly where it is the defined one, or where memory runs out; then what was worked on may not be
/// used.
pub fn prove(
    alloc: Global,
    claim: &Claim,
    work: &mut Work,
    raw: &RawEquation,
) -> Result<(), CommandRefusal>
    requires provable { IsProvable claim.now.theory claim.now.statement }
    requires works { IsSomeWork claim.now.theory claim.now.statement work.old }
    ensures proved { OnOk result ((p : Proof) → MayWork claim.now.theory claim.now.statement work.old p
        → Makes claim.now.theory claim.now.statement work.new p (carried_out (Prove raw.now) p)) }
    ensures refused { IfErr result (λ refusal. (p : Proof) → MayWork claim.now.theory claim.now.statement work.old p
        → Tells (carried_out (Prove raw.now) p) refusal) }
{
    let ReadSides { left, right } = work.settings.read_sides(alloc, raw)?;
    let formula = formula(alloc, left, right)?;
    prove_formula(alloc, claim, work, &formula)
}

// The same of a formula that was read.
fn prove_formula(
    alloc: Global,
    claim: &Claim,
    work: &mut Work,
    formula: &Term,
) -> Result<(), CommandRefusal>
    requires provable { IsProvable claim.now.theory claim.now.statement }
    requires works { IsSomeFormula claim.now.theory claim.now.statement work.old formula.now }
    ensures proved { OnOk result ((p : Proof)
        → IsWorkForFormula claim.now.theory claim.now.statement work.old formula.now p
        → Makes claim.now.theory claim.now.statement work.new p (level_opened formula.now p)) }
    ensures refused { IfErr result (λ refusal. (p : Proof)
        → IsWorkForFormula claim.now.theory claim.now.statement work.old formula.now p
        → Tells (level_opened formula.now p) refusal) }
{
    let Work {
        settings,
        store,
        draft,
    } = work;
    match open_for(alloc, claim, settings, store, draft, formula) {
        Ok(()) => Ok(()),
        Err(refusal) => Err(command_refusal(refusal)),
    }
}

// The same by settings, terms and draft.
fn open_for<'a>(
    alloc: Global,
    claim: &'a Claim,
    settings: &'a Settings,
    store: &mut Store,
    draft: &mut Draft,
    formula: &Term,
) -> Result<(), RewriteRefusal>
    requires provable { IsProvable claim.now.theory claim.now.statement }
    requires stands { IsSomeProvable claim.now.theory claim.now.statement settings.now.precedence.value
        settings.now.limit store.old draft.old settings.now.constants.value formula.now }
    ensures opened { OnOk result ((p : Proof) (k : Kept) (ks : List Kept)
        → IsOver claim.now.theory settings.now.precedence.value settings.now.limit p
        → Stands claim.now.theory claim.now.statement store.old draft.old p k ks
        → MayProve claim.now.theory settings.now.constants.value formula.now p
        → Leads claim.now.theory claim.now.statement store.new draft.new p None (level_opened formula.now p)) }
    ensures refused { IfErr result (λ refusal. (p : Proof) (k : Kept) (ks : List Kept)
        → IsOver claim.now.theory settings.now.precedence.value settings.now.limit p
        → Stands claim.now.theory claim.now.statement store.old draft.old p k ks
        → MayProve claim.now.theory settings.now.constants.value formula.now p
        → TellsCode (level_opened formula.now p) refusal) }
{
    let proving = Proving {
        theory: &claim.theory,
        statement: &claim.statement,
        around: Around {
            alloc,
            precedence: &settings.precedence,
            limit: settings.limit,
        },
    };
    open_level(
        alloc,
        store,
        &proving,
        draft,
        settings.constants.as_slice(),
        formula,
    )
}

// A level for a formula, and what that leads to where it is proved at once. The constants of the block are these.
fn open_level<'a>(
    alloc: Global,
    store: &mut Store,
    proving: &Proving<'a>,
    draft: &mut Draft,
    block: &[Operator],
    formula: &Term,
) -> Result<(), RewriteRefusal>
    requires provable { IsProvable proving.now.theory.now proving.now.statement.now }
    requires stands { IsSomeProvable proving.now.theory.now proving.now.statement.now
        proving.now.around.precedence.now proving.now.around.limit store.old draft.old block.now formula.now }
    ensures opened { OnOk result ((p : Proof) (k : Kept) (ks : List Kept)
        → IsOver proving.now.theory.now proving.now.around.precedence.now proving.now.around.limit p
        → Stands proving.now.theory.now proving.now.statement.now store.old draft.old p k ks
        → MayProve proving.now.theory.now block.now formula.now p
        → Leads proving.now.theory.now proving.now.statement.now store.new draft.new p None
        (level_opened formula.now p)) }
    ensures refused { IfErr result (λ refusal. (p : Proof) (k : Kept) (ks : List Kept)
        → IsOver proving.now.theory.now proving.now.around.precedence.now proving.now.around.limit p
        → Stands proving.now.theory.now proving.now.statement.now store.old draft.old p k ks
        → MayProve proving.now.theory.now block.now formula.now p
        → TellsCode (level_opened formula.now p) refusal) }
{
    let way = write_formula(alloc, draft, block, formula)?;
    let Draft {
        builder,
        current,
        ..
    } = draft;
    let level = formula_level(store, builder, current, &proving.around, formula, way)?;
    push_level(alloc, &mut draft.current, &mut draft.below, level)?;
    settle(alloc, store, proving, draft)
}

// Opens a box on the current level for each constant of a formula whose own box isn't open, and answers a line that
// says that the formula equals itself.
fn write_formula(
    alloc: Global,
    draft: &mut Draft,
    block: &[Operator],
    formula: &Term,
) -> Result<u64, Memory>
    ensures written { IfOk result (λ way. (t : is_theory) (s : is_statement) (store : List Numbered) (p : Proof)
        (k : Kept) (ks : List Kept) → Stands t s store draft.old p k ks → MayProve t block.now formula.now p
        → IsWritten t s store draft.new p ks formula.now way) }
    ensures below { draft.new.below ≡ draft.old.below }
{
    open_boxes_for(alloc, draft, block, formula)?;
    push_refl(&mut draft.builder, formula)
}

// A level for a formula upon a parent whose facts are said, as a line says that the formula equals itself. Its goal
// gets its normal form. A refusal comes exactly where it is the defined event, or where memory runs out.
#[tactic(auto, using(larch_store::proofs::Growth::grows_refl, larch_derive::proofs::Growth::extends_same))]
fn formula_level<'a>(
    store: &mut Store,
    builder: &mut Builder,
    parent: &Level,
    around: &Around<'a>,
    formula: &Term,
    way: u64,
) -> Result<Level, RewriteRefusal>
    requires facts { SaysFacts builder.old parent.now }
    requires says { HasEquation builder.old way formula.now formula.now }
    ensures normal { IfOk result (λ level.
        work_result (normal (rules_of (facts_of parent.now.facts).rules) formula.now around.now.limit)
        ≡ Ok (term_of level.goal.term)) }
    ensures refused { IfErr result (TellsCode
        (work_result (normal (rules_of (facts_of parent.now.facts).rules) formula.now around.now.limit))) }
    ensures made { IfOk result (IsForFormula formula.now) }
    ensures facts { IfOk result (λ level. facts_of level.facts ≡ facts_of parent.now.facts) }
    ensures ready { IfOk result (IsReady store.new builder.new) }
    ensures first { IfOk result (λ level. Belongs store.new level.first) }
    ensures grows { Grows store.old store.new }
    ensures extends { Extends builder.old builder.new }
{
    let first = store.intern(formula)?;
    let term = first.copy()?;
    let facts = parent.facts.copy()?;
    let mut level = Level {
        purpose: Purpose::OfProof,
        facts,
        goal: LevelGoal { term, way },
        first,
        entrance: None,
        extras: Sequence::new(around.alloc),
        running: None,
    };
    normalise_goal(around.alloc, store, builder, &mut level, around.limit)?;
    Ok(level)
}

// Puts a level upon the others.
fn push_level(
    alloc: Global,
    current: &mut Level,
    below: &mut Vec<Rc<Level>>,
    level: Level,
) -> Result<(), Memory>
    ensures current { OnOk result (current.new ≡ level) }
    ensures below { OnOk result (map (λ one. one.value) below.new.items
        ≡ map (λ one. one.value) below.old.items ++ current.old ∷ []) }
{
    let parent = replace(current, level);
    let parent = Rc::new(alloc, parent)?;
    below.push(parent)?;
    Ok(())
}
