ghost use Rattle.std.specs.Prelude.{◌≡◌, ◌∷◌, [], IfErr, IfOk, OnOk};
ghost use Rattle.larch_prove_work.specs.ProveDraftProving.{IsProvable};
ghost use Rattle.larch_prove_meaning.specs.Levels.{Proof};
ghost use Rattle.larch_prove_meaning.specs.Steps.{carried_out};
ghost use Rattle.larch_prove_work.specs.ProveSettingsTelling.{Tells};
ghost use Rattle.larch_prove_work.specs.Work.{IsSomeWork, Makes, MayWork};
ghost use Rattle.larch_script_commands.specs.declared.command.CommandKind.TheVariants.{Normalize};

use crate::derivation::derive_facts;
use crate::named::{fact_named, take_out};
use larch_base::{FactName, Memory};
use larch_prove_work::from_prove_adding::SaidEquation;
use larch_prove_work::from_prove_settings::CommandRefusal;
use larch_prove_work::{Claim, Work};
use std::alloc::Global;

/// The command that takes a fact out of the current level's list and adds its equation again, and what that leads to. A
/// refusal comes exactly where it is the defined one, or where memory runs out; then what was worked on may not be
/// used.
pub fn normalize(
    alloc: Global,
    claim: &Claim,
    work: &mut Work,
    fact: &FactName,
) -> Result<(), CommandRefusal>
    requires provable { IsProvable claim.now.theory claim.now.statement }
    requires works { IsSomeWork claim.now.theory claim.now.statement work.old }
    ensures normalized { OnOk result ((p : Proof) → MayWork claim.now.theory claim.now.statement work.old p
        → Makes claim.now.theory claim.now.statement work.new p (carried_out (Normalize fact.now) p)) }
    ensures refused { IfErr result (λ refusal. (p : Proof) → MayWork claim.now.theory claim.now.statement work.old p
        → Tells (carried_out (Normalize fact.now) p) refusal) }
{
    let equation = fact_named(alloc, &work.draft.current.facts, fact)?;
    take_out(&mut work.draft, fact)?;
    let equations = alone(alloc, equation)?;
    derive_facts(alloc, claim, work, equations)
}

// One equation.
fn alone(alloc: Global, equation: SaidEquation) -> Result<Vec<SaidEquation>, Memory>
    ensures { IfOk result (λ es. es.items ≡ equation ∷ []) }
{
    let mut equations = Vec::with_capacity(alloc, 1)?;
    equations.push(equation)?;
    Ok(equations)
}
