ghost use Rattle.std.specs.Prelude.{◌≡◌, ◌++◌, IfErr, IfOk, OnOk, map};
ghost use Rattle.larch_prove_meaning.specs.Levels.{Proof};
ghost use Rattle.larch_prove_meaning.specs.Plans.{Plan as defined, plan};
ghost use Rattle.larch_prove_meaning.specs.Steps.{setting_of};
ghost use Rattle.larch_prove_plans.specs.Planning.{method_of, names_of_operators};
ghost use Rattle.larch_prove_resuming.specs.Resuming.{IsPlannedFor, constants_in, plan_refusal};
ghost use Rattle.larch_prove_work.specs.ProveSettingsScope.{pair_of};
ghost use Rattle.larch_prove_work.specs.ProveSettingsTelling.{Tells};
ghost use Rattle.larch_prove_work.specs.Work.{MayWork};

use larch_base::{Code, Memory, Name};
use larch_prove_plans::{Method, Plan, PlanRefusal, plan};
use larch_prove_work::from_prove_levels::Planned;
use larch_prove_work::from_prove_settings::{CommandRefusal, Settings};
use larch_prove_work::{Claim, Work};
use larch_term::{Operator, Operators, Variable, copy_operators};
use std::alloc::Global;

// What a method makes of the current goal. It is refused with SHAPE, VARIABLE, GENERATED or PARTITIONED.
pub(crate) fn plan_method(
    alloc: Global,
    claim: &Claim,
    work: &Work,
    method: Method,
) -> Result<Planned, CommandRefusal>
    ensures method { IfOk result (λ planned. planned.method ≡ method) }
    ensures planned { IfOk result (λ planned. (p : Proof)
        → MayWork claim.now.theory claim.now.statement work.now p → (made : defined) × IsPlannedFor p planned made) }
    ensures refused { IfErr result (λ refusal. (p : Proof)
        → MayWork claim.now.theory claim.now.statement work.now p
        → Tells (plan (setting_of p) p.current.goal (method_of method)) refusal) }
{
    let names = taken_names(alloc, &work.settings)?;
    let goal = work.store.to_term(&work.draft.current.goal.term)?;
    match plan(alloc, &claim.theory, names.as_slice(), &goal, &method) {
        Ok(plan) => Ok(Planned { method, plan }),
        Err(refusal) => Err(plan_refusal(refusal)),
    }
}

// The refusal of a command whose method has no plan.
fn plan_refusal(refusal: PlanRefusal) -> CommandRefusal
    ensures { result ≡ plan_refusal refusal }
{
    match refusal {
        PlanRefusal::Shape => CommandRefusal::Wrong(Code::Shape),
        PlanRefusal::Variable => CommandRefusal::Wrong(Code::Variable),
        PlanRefusal::Generated => CommandRefusal::Wrong(Code::Generated),
        PlanRefusal::Partitioned => CommandRefusal::Wrong(Code::Partitioned),
        PlanRefusal::Memory => CommandRefusal::Memory,
    }
}

// The names that are taken beside those of the theory's operators: of the block's constants and of what is in scope.
fn taken_names(alloc: Global, settings: &Settings) -> Result<Vec<Name>, Memory>
    ensures { IfOk result (λ names. names.items ≡ names_of_operators settings.now.constants.value
        ++ map (λ v. v.0) settings.now.scope.value) }
{
    let mut names = Vec::new(alloc);
    push_operators(settings.constants.as_slice(), &mut names)?;
    push_variables(settings.scope.variables(), &mut names)?;
    Ok(names)
}

// Puts the names of operators behind others.
fn push_operators(operators: &[Operator], names: &mut Vec<Name>) -> Result<(), Memory>
    ensures { OnOk result (names.new.items ≡ names.old.items ++ names_of_operators operators.now) }
{
    for operator in operators {
        let name = operator.name().copy()?;
        names.push(name)?;
    }
    Ok(())
}

// Puts the names of variables behind others.
fn push_variables(variables: &[Variable], names: &mut Vec<Name>) -> Result<(), Memory>
    ensures { OnOk result (names.new.items ≡ names.old.items ++ map (λ v. v.0) (map pair_of variables.now)) }
{
    for variable in variables {
        let name = variable.name.copy()?;
        names.push(name)?;
    }
    Ok(())
}

// All constants of a plan, those of one subgoal behind those of the other.
pub(crate) fn constants_of_plan(alloc: Global, plan: &Plan) -> Result<Operators, Memory>
    ensures { IfOk result (λ constants. constants ≡ constants_in plan.now) }
{
    let mut constants = copy_operators(alloc, plan.constants.as_slice())?;
    for subgoal in plan.subgoals.as_slice() {
        add_operators(&mut constants, subgoal.constants.as_slice())?;
    }
    Ok(constants)
}

// Puts operators behind others.
fn add_operators(operators: &mut Operators, further: &[Operator]) -> Result<(), Memory>
    ensures { OnOk result (operators.new ≡ operators.old ++ further.now) }
{
    for operator in further {
        let copied = operator.copy()?;
        operators.push(copied)?;
    }
    Ok(())
}
