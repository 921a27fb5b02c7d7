ghost use Rattle.std.specs.Prelude.{◌≡◌, IfErr, None, OnOk};
ghost use Rattle.larch_prove_work.specs.ProveDraftProving.{IsProvable};
ghost use Rattle.larch_prove_meaning.specs.Levels.{Proof};
ghost use Rattle.larch_prove_meaning.specs.Plans.{Cases as by_cases};
ghost use Rattle.larch_prove_meaning.specs.Steps.{carried_out, resume as resumed};
ghost use Rattle.larch_prove_work.specs.ProveSettingsTelling.{Tells};
ghost use Rattle.larch_prove_work.specs.Formula.{IsSomeFormula, IsWorkForFormula};
ghost use Rattle.larch_prove_work.specs.Work.{IsSomeWork, Makes, MayWork};
ghost use Rattle.larch_script_commands.specs.declared.command.CommandKind.TheVariants.{Cases};

use crate::resuming::resume;
use larch_prove_plans::Method;
use larch_prove_work::from_prove_settings::CommandRefusal;
use larch_prove_work::{Claim, Work, open_boxes_for};
use larch_raw::RawEquation;
use larch_term::{Term, bool_sort};
use std::alloc::Global;

// By cases of a formula that is to be read.
pub(crate) fn resume_by_cases(
    alloc: Global,
    claim: &Claim,
    work: &mut Work,
    raw: &RawEquation,
) -> Result<(), CommandRefusal>
    requires provable { IsProvable claim.now.theory claim.now.statement }
    requires works { IsSomeWork claim.now.theory claim.now.statement work.old }
    requires alone { raw.now.right ≡ None }
    ensures made { OnOk result ((p : Proof) → MayWork claim.now.theory claim.now.statement work.old p
        → Makes claim.now.theory claim.now.statement work.new p (carried_out (Cases raw.now) p)) }
    ensures refused { IfErr result (λ refusal. (p : Proof) → MayWork claim.now.theory claim.now.statement work.old p
        → Tells (carried_out (Cases raw.now) p) refusal) }
{
    let sort = bool_sort(alloc)?;
    let formula = work.settings.read_lone(alloc, &sort, raw)?;
    resume_by_formula(alloc, claim, work, formula)
}

// The same of a formula that was read: boxes are opened for its constants, so it can be written.
fn resume_by_formula(
    alloc: Global,
    claim: &Claim,
    work: &mut Work,
    formula: Term,
) -> Result<(), CommandRefusal>
    requires provable { IsProvable claim.now.theory claim.now.statement }
    requires works { IsSomeFormula claim.now.theory claim.now.statement work.old formula }
    ensures made { OnOk result ((p : Proof)
        → IsWorkForFormula claim.now.theory claim.now.statement work.old formula p
        → Makes claim.now.theory claim.now.statement work.new p (resumed (by_cases formula) p)) }
    ensures refused { IfErr result (λ refusal. (p : Proof)
        → IsWorkForFormula claim.now.theory claim.now.statement work.old formula p
        → Tells (resumed (by_cases formula) p) refusal) }
{
    let block = work.settings.constants.as_slice();
    open_boxes_for(alloc, &mut work.draft, block, &formula)?;
    resume(alloc, claim, work, Method::Cases(formula))
}
