ghost use Rattle.std.specs.Prelude.{◌≡◌, ◌++◌, ◌∷◌, [], All, IfErr, IfOk, OnOk, Ok, Some, map, suc, ℕ};
ghost use Rattle.larch_complete.specs.Work.{EndsWith, Holds, IsSound, rounds_from, stage_in};
ghost use Rattle.larch_complete_meaning.specs.Completion.{Completion, IsDerivable, IsRuleOf, add_rule as added};
ghost use Rattle.larch_complete_meaning.specs.Completion.{most_equations, next_equation as taken_next, without_next};
ghost use Rattle.larch_complete_meaning.specs.Rounds.{Stage};
ghost use Rattle.larch_complete_pairs.specs.Said.{IsSaid, IsSaidRule, rule_in, sides_in};
ghost use Rattle.larch_complete_rounds.specs.Certified.{IsCertified, sides_behind};
ghost use Rattle.larch_complete_rounds.specs.Halt.{Tells};
ghost use Rattle.larch_complete_rounds.specs.Ready.{IsReady, IsSmall, rules_in};
ghost use Rattle.larch_complete_rounds.specs.Task.{task_in};
ghost use Rattle.larch_derive.specs.Builder.{boxes_in, theory_in};
ghost use Rattle.larch_derive.specs.Predicates.{Extends};

use crate::testing::last_test;
use crate::work::Work;
use larch_base::Memory;
use larch_complete_meaning::CompletionAnswer;
use larch_complete_pairs::SaidEquation;
use larch_complete_rounds::{
    CertifiedRule, CompletionTask, Halt, Rewriter, certify, push_new_pairs, settle,
};
use std::alloc::Global;

// How many equations are taken at most.
const MOST_EQUATIONS: u32 = 200;

// Round by round to the end of a completion.
pub(crate) fn work_through(
    alloc: Global,
    work: &mut Work,
    task: &CompletionTask,
) -> Result<CompletionAnswer, Memory>
    requires { Holds (theory_in work.old.rewriter.builder) task.now work.old }
    ensures completed { IfOk result (λ answer. rounds_from most_equations (task_in task.now) (stage_in work.old)
        ≡ record { answer = answer; rules = map sides_behind work.new.rules }) }
    ensures certified { All (IsCertified (theory_in work.old.rewriter.builder)) work.new.rules }
{
    match work_to_halt(alloc, work, task) {
        Halt::Ends(answer) => Ok(answer),
        Halt::Memory => Err(Memory),
    }
}

// Round by round until it halts; that it does where as many equations are taken as a completion takes.
fn work_to_halt(alloc: Global, work: &mut Work, task: &CompletionTask) -> Halt
    requires { Holds (theory_in work.old.rewriter.builder) task.now work.old }
    ensures ends { EndsWith (rounds_from most_equations (task_in task.now) (stage_in work.old))
        (map sides_behind work.new.rules) result }
    ensures certified { All (IsCertified (theory_in work.old.rewriter.builder)) work.new.rules }
{
    for _taken in 0..MOST_EQUATIONS {
        if let Err(halt) = go_round(alloc, work, task) {
            return halt;
        }
    }
    match next_equation(alloc, work, task) {
        Ok(_) => Halt::Ends(CompletionAnswer::Spent),
        Err(halt) => halt,
    }
}

// Takes the next equation and puts the rule that it makes behind the others, if it makes one.
fn go_round(alloc: Global, work: &mut Work, task: &CompletionTask) -> Result<(), Halt>
    requires { Holds (theory_in work.old.rewriter.builder) task.now work.old }
    ensures goes { OnOk result ((n : ℕ) → rounds_from (suc n) (task_in task.now) (stage_in work.old)
        ≡ rounds_from n (task_in task.now) (stage_in work.new)) }
    ensures ends { IfErr result (λ halt. (n : ℕ) → EndsWith (rounds_from (suc n) (task_in task.now)
        (stage_in work.old)) (map sides_behind work.new.rules) halt) }
    ensures holds { OnOk result (Holds (theory_in work.old.rewriter.builder) task.now work.new) }
    ensures certified { All (IsCertified (theory_in work.old.rewriter.builder)) work.new.rules }
{
    let equation = next_equation(alloc, work, task)?;
    let settled = settle(alloc, &mut work.rewriter, task, &equation)?;
    let Some(rule) = settled else {
        return Ok(());
    };
    add_rule(alloc, work, rule)?;
    Ok(())
}

// The equation that is taken next: the first that waits; where none does, the one that the last test finds. It ends as
// complete where that finds none.
fn next_equation(
    alloc: Global,
    work: &mut Work,
    task: &CompletionTask,
) -> Result<SaidEquation, Halt>
    requires { Holds (theory_in work.old.rewriter.builder) task.now work.old }
    ensures next { IfOk result (λ e. taken_next (task_in task.now) (stage_in work.old) ≡ Ok (sides_in e)) }
    ensures ends { IfErr result (Tells (taken_next (task_in task.now) (stage_in work.old))) }
    ensures stage { OnOk result (stage_in work.new ≡ without_next (stage_in work.old)) }
    ensures said { IfOk result (IsSaid work.new.rewriter.builder) }
    ensures derivable { IfOk result (λ e. IsDerivable (theory_in work.old.rewriter.builder) (sides_in e)) }
    ensures holds { OnOk result (Holds (theory_in work.old.rewriter.builder) task.now work.new) }
    ensures rules { work.new.rules ≡ work.old.rules }
{
    if let Some(equation) = work.waiting.pop_front() {
        return Ok(equation);
    }
    let found = last_test(alloc, &mut work.rewriter, task, work.rules.as_slice())?;
    match found {
        Some(equation) => Ok(equation),
        None => Err(Halt::Ends(CompletionAnswer::Complete)),
    }
}

// Puts a rule behind the others, with a certificate, and its critical pairs behind the equations that wait.
fn add_rule(alloc: Global, work: &mut Work, rule: SaidEquation) -> Result<(), Halt>
    requires sound { IsSound (theory_in work.old.rewriter.builder) work.old }
    requires said { IsSaid work.old.rewriter.builder rule }
    requires small { IsSmall rule }
    requires derivable { IsRuleOf (theory_in work.old.rewriter.builder) (sides_in rule) }
    ensures goes { OnOk result ((next : Stage → Completion) → added next (stage_in work.old) (Some (sides_in rule))
        ≡ next (stage_in work.new)) }
    ensures ends { IfErr result (λ halt. (next : Stage → Completion) → EndsWith (added next (stage_in work.old)
        (Some (sides_in rule))) (map sides_behind work.new.rules) halt) }
    ensures sound { OnOk result (IsSound (theory_in work.old.rewriter.builder) work.new) }
    ensures extends { OnOk result (Extends work.old.rewriter.builder work.new.rewriter.builder) }
    ensures certified { All (IsCertified (theory_in work.old.rewriter.builder)) work.new.rules }
{
    let certified = certify_rule(alloc, &mut work.rewriter, rule)?;
    let pushed = push_new_pairs(
        alloc,
        &mut work.rewriter.builder,
        &mut work.waiting,
        work.rules.as_slice(),
        &certified.said,
    );
    work.rules.push(certified)?;
    pushed?;
    Ok(())
}

// The rule with its certificate, when what rewrites has it behind the other rules.
#[tactic(auto, using(larch_derive::proofs::Growth::extends_same))]
fn certify_rule(
    alloc: Global,
    rewriter: &mut Rewriter,
    rule: SaidEquation,
) -> Result<CertifiedRule, Memory>
    requires said { IsSaid rewriter.old.builder rule }
    requires small { IsSmall rule }
    requires boxes { boxes_in rewriter.old.builder ≡ [] }
    requires ready { IsReady rewriter.old }
    ensures rule { IfOk result (λ r. rule_in r.said ≡ sides_in rule) }
    ensures says { IfOk result (λ r. IsSaidRule rewriter.new.builder r.said) }
    ensures certified { IfOk result (IsCertified (theory_in rewriter.old.builder)) }
    ensures extends { Extends rewriter.old.builder rewriter.new.builder }
    ensures rules { OnOk result (rules_in rewriter.new ≡ rules_in rewriter.old ++ sides_in rule ∷ []) }
    ensures ready { OnOk result (IsReady rewriter.new) }
{
    rewriter.add(&rule)?;
    certify(alloc, &mut rewriter.builder, rule)
}
