ghost use Rattle.std.specs.Prelude.{◌≡◌, IfErr, IfOk, IsSome, OnOk, Some};
ghost use Rattle.larch_prove_work.specs.ProveDraftProving.{IsProvable};
ghost use Rattle.larch_prove_meaning.specs.Levels.{Proof};
ghost use Rattle.larch_prove_meaning.specs.Steps.{carried_out};
ghost use Rattle.larch_prove_plans.specs.Planning.{method_of};
ghost use Rattle.larch_prove_resuming.specs.Commands.{ResumesProof, method_in};
ghost use Rattle.larch_prove_work.specs.ProveSettingsTelling.{Tells};
ghost use Rattle.larch_prove_work.specs.Work.{IsSomeWork, Makes, MayWork};
ghost use Rattle.larch_script_commands.specs.Worded.{WordedKind};

use crate::cases::resume_by_cases;
use crate::resuming::resume;
use larch_base::Memory;
use larch_prove_plans::Method;
use larch_prove_work::from_prove_settings::CommandRefusal;
use larch_prove_work::{Claim, Work};
use larch_script_commands::CommandKind;
use std::alloc::Global;

/// A command that resumes the proof by a method: what the method makes of the current goal is opened in turn, until a
/// subgoal isn't proved at once. A refusal comes exactly where it is the defined one, or where memory runs out; then
/// what was worked on may not be used.
pub fn resume_by(
    alloc: Global,
    claim: &Claim,
    work: &mut Work,
    kind: &CommandKind,
) -> Result<(), CommandRefusal>
    requires provable { IsProvable claim.now.theory claim.now.statement }
    requires works { IsSomeWork claim.now.theory claim.now.statement work.old }
    requires worded { WordedKind kind.now }
    requires kind { ResumesProof kind.now }
    ensures made { OnOk result ((p : Proof) → MayWork claim.now.theory claim.now.statement work.old p
        → Makes claim.now.theory claim.now.statement work.new p (carried_out kind.now p)) }
    ensures refused { IfErr result (λ refusal. (p : Proof) → MayWork claim.now.theory claim.now.statement work.old p
        → Tells (carried_out kind.now p) refusal) }
{
    match kind {
        CommandKind::Cases(term) => resume_by_cases(alloc, claim, work, term),
        _ => resume_without_term(alloc, claim, work, kind),
    }
}

// The same of a command that has no term.
fn resume_without_term(
    alloc: Global,
    claim: &Claim,
    work: &mut Work,
    kind: &CommandKind,
) -> Result<(), CommandRefusal>
    requires provable { IsProvable claim.now.theory claim.now.statement }
    requires works { IsSomeWork claim.now.theory claim.now.statement work.old }
    requires kind { IsSome (method_in kind.now) }
    ensures made { OnOk result ((p : Proof) → MayWork claim.now.theory claim.now.statement work.old p
        → Makes claim.now.theory claim.now.statement work.new p (carried_out kind.now p)) }
    ensures refused { IfErr result (λ refusal. (p : Proof) → MayWork claim.now.theory claim.now.statement work.old p
        → Tells (carried_out kind.now p) refusal) }
{
    let method = method_in(kind)?;
    resume(alloc, claim, work, method)
}

// The method of a command that has no term.
fn method_in(kind: &CommandKind) -> Result<Method, Memory>
    requires { IsSome (method_in kind.now) }
    ensures { IfOk result (λ method. method_in kind.now ≡ Some (method_of method)) }
{
    match kind {
        CommandKind::Implication => Ok(Method::Implication),
        CommandKind::Conjunction => Ok(Method::Conjunction),
        CommandKind::Contradiction => Ok(Method::Contradiction),
        CommandKind::Induction(variable) => {
            let name = variable.name.copy()?;
            Ok(Method::Induction(name))
        }
        CommandKind::Partition => Ok(Method::Partition),
        _ => unreachable!(),
    }
}
