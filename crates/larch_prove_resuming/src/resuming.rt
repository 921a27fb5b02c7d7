ghost use Rattle.std.specs.Prelude.{IfErr, OnOk};
ghost use Rattle.larch_prove_work.specs.ProveDraftProving.{IsProvable};
ghost use Rattle.larch_prove_meaning.specs.Levels.{Proof, begun};
ghost use Rattle.larch_prove_meaning.specs.Plans.{Plan};
ghost use Rattle.larch_prove_meaning.specs.Steps.{resume as resumed};
ghost use Rattle.larch_prove_plans.specs.Planning.{method_of};
ghost use Rattle.larch_prove_resuming.specs.Resuming.{IsPlannedFor, IsSomePlanned, IsSomeResuming, MayResume};
ghost use Rattle.larch_prove_work.specs.ProveSettingsTelling.{Tells};
ghost use Rattle.larch_prove_work.specs.Work.{Makes};

use crate::beginning::begin;
use crate::planning::{constants_of_plan, plan_method};
use larch_prove_plans::Method;
use larch_prove_work::from_prove_levels::Planned;
use larch_prove_work::from_prove_settings::CommandRefusal;
use larch_prove_work::{Claim, Work, command_refusal};
use std::alloc::Global;

// A method is carried out on the current goal: its constants are made, and its subgoals are opened in turn until one
// isn't proved at once. What it is carried out with can be written already. A refusal comes exactly where it is the
// defined one, or where memory runs out; then what was worked on may not be used.
pub(crate) fn resume(
    alloc: Global,
    claim: &Claim,
    work: &mut Work,
    method: Method,
) -> Result<(), CommandRefusal>
    requires provable { IsProvable claim.now.theory claim.now.statement }
    requires works { IsSomeResuming claim.now.theory claim.now.statement work.old method }
    ensures made { OnOk result ((p : Proof) → MayResume claim.now.theory claim.now.statement work.old method p
        → Makes claim.now.theory claim.now.statement work.new p (resumed (method_of method) p)) }
    ensures refused { IfErr result (λ refusal. (p : Proof)
        → MayResume claim.now.theory claim.now.statement work.old method p
        → Tells (resumed (method_of method) p) refusal) }
{
    let planned = plan_method(alloc, claim, work, method)?;
    carry_out(alloc, claim, work, planned)
}

// The same of a method that was planned.
fn carry_out(
    alloc: Global,
    claim: &Claim,
    work: &mut Work,
    planned: Planned,
) -> Result<(), CommandRefusal>
    requires provable { IsProvable claim.now.theory claim.now.statement }
    requires works { IsSomePlanned claim.now.theory claim.now.statement work.old planned }
    ensures made { OnOk result ((p : Proof) (made : Plan)
        → MayResume claim.now.theory claim.now.statement work.old planned.method p → IsPlannedFor p planned made
        → Makes claim.now.theory claim.now.statement work.new p (begun made p)) }
    ensures refused { IfErr result (λ refusal. (p : Proof) (made : Plan)
        → MayResume claim.now.theory claim.now.statement work.old planned.method p → IsPlannedFor p planned made
        → Tells (begun made p) refusal) }
{
    let constants = constants_of_plan(alloc, &planned.plan)?;
    work.settings.make_constants(alloc, constants.as_slice())?;
    let Work {
        settings,
        store,
        draft,
    } = work;
    match begin(alloc, claim, settings, store, draft, planned) {
        Ok(()) => Ok(()),
        Err(refusal) => Err(command_refusal(refusal)),
    }
}
