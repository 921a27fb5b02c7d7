ghost use Rattle.std.specs.Prelude.{◌≡◌, ◌∷◌, [], All, IfErr, IfOk, IfSome, OnOk, Ok, map, option_map};
ghost use Rattle.larch_complete.specs.Tests.{Finds, Halts, IsTold, TellsOf};
ghost use Rattle.larch_complete_meaning.specs.LastTest.{first_apart as apart_first, last_test as tested};
ghost use Rattle.larch_complete_meaning.specs.Pairs.{pairs_from, pairs_in, pairs_of_all};
ghost use Rattle.larch_complete_pairs.specs.Said.{IsSaid, Stops, rule_in, sides_in};
ghost use Rattle.larch_complete_rounds.specs.Certified.{IsRuleIn, sides_behind};
ghost use Rattle.larch_complete_rounds.specs.Halt.{Tells};
ghost use Rattle.larch_complete_rounds.specs.Ready.{IsReady, rules_in};
ghost use Rattle.larch_complete_rounds.specs.Task.{task_in};
ghost use Rattle.larch_derive.specs.Predicates.{Extends};

use crate::equations::queue_of;
use larch_complete_pairs::{SaidEquation, SaidRule, push_pairs};
use larch_complete_rounds::{CertifiedRule, CompletionTask, Halt, Rewriter};
use larch_derive::Builder;
use larch_pairs::PairRefusal;
use larch_term::same_term;
use std::alloc::Global;
use std::collections::VecDeque;

// The last test: the first equation that the rules don't decide, if there is one, of the theory's equations, or else of
// the rules' critical pairs.
pub(crate) fn last_test(
    alloc: Global,
    rewriter: &mut Rewriter,
    task: &CompletionTask,
    rules: &[CertifiedRule],
) -> Result<Option<SaidEquation>, Halt>
    requires equations { All (IsSaid rewriter.old.builder) task.now.equations }
    requires rules { All (λ r. IsRuleIn rewriter.old.builder r.said) rules.now }
    requires same { rules_in rewriter.old ≡ map sides_behind rules.now }
    requires ready { IsReady rewriter.old }
    ensures found { IfOk result (λ found. tested (task_in task.now) (rules_in rewriter.old)
        ≡ Ok (option_map sides_in found)) }
    ensures halts { IfErr result (Tells (tested (task_in task.now) (rules_in rewriter.old))) }
    ensures says { IfOk result (λ found. IfSome found (IsSaid rewriter.new.builder)) }
    ensures extends { Extends rewriter.old.builder rewriter.new.builder }
    ensures rules { rules_in rewriter.new ≡ rules_in rewriter.old }
    ensures ready { OnOk result (IsReady rewriter.new) }
{
    let equations = queue_of(alloc, task.equations.as_slice())?;
    let undecided = first_apart(alloc, rewriter, task, equations)?;
    if let Some(equation) = undecided {
        return Ok(Some(equation));
    }
    first_apart_in_rules(alloc, rewriter, task, rules)
}

// The first one among the critical pairs of rules, rule by rule.
fn first_apart_in_rules(
    alloc: Global,
    rewriter: &mut Rewriter,
    task: &CompletionTask,
    rules: &[CertifiedRule],
) -> Result<Option<SaidEquation>, Halt>
    requires rules { All (λ r. IsRuleIn rewriter.old.builder r.said) rules.now }
    requires ready { IsReady rewriter.old }
    ensures found { IfOk result (λ found. Finds (task_in task.now) (rules_in rewriter.old)
        (pairs_of_all (map sides_behind rules.now)) (option_map sides_in found)) }
    ensures halts { IfErr result (Halts (task_in task.now) (rules_in rewriter.old)
        (pairs_of_all (map sides_behind rules.now))) }
    ensures says { IfOk result (λ found. IfSome found (IsSaid rewriter.new.builder)) }
    ensures extends { Extends rewriter.old.builder rewriter.new.builder }
    ensures rules { rules_in rewriter.new ≡ rules_in rewriter.old }
    ensures ready { OnOk result (IsReady rewriter.new) }
{
    for (place, rule) in rules.iter().enumerate() {
        let found = first_apart_in_rule(alloc, rewriter, task, rules, &rule.said, place)?;
        if let Some(equation) = found {
            return Ok(Some(equation));
        }
    }
    Ok(None)
}

// The first one among the critical pairs of rules in one of them, which has this place there, rule by rule.
fn first_apart_in_rule(
    alloc: Global,
    rewriter: &mut Rewriter,
    task: &CompletionTask,
    rules: &[CertifiedRule],
    first: &SaidRule,
    place: usize,
) -> Result<Option<SaidEquation>, Halt>
    requires rules { All (λ r. IsRuleIn rewriter.old.builder r.said) rules.now }
    requires first { IsRuleIn rewriter.old.builder first.now }
    requires ready { IsReady rewriter.old }
    ensures found { IfOk result (λ found. Finds (task_in task.now) (rules_in rewriter.old)
        (pairs_from place (rule_in first.now) 0 (map sides_behind rules.now)) (option_map sides_in found)) }
    ensures halts { IfErr result (Halts (task_in task.now) (rules_in rewriter.old)
        (pairs_from place (rule_in first.now) 0 (map sides_behind rules.now))) }
    ensures says { IfOk result (λ found. IfSome found (IsSaid rewriter.new.builder)) }
    ensures extends { Extends rewriter.old.builder rewriter.new.builder }
    ensures rules { rules_in rewriter.new ≡ rules_in rewriter.old }
    ensures ready { OnOk result (IsReady rewriter.new) }
{
    for (index, second) in rules.iter().enumerate() {
        let one = place == index;
        let found = first_pair_apart(alloc, rewriter, task, first, &second.said, one)?;
        if let Some(equation) = found {
            return Ok(Some(equation));
        }
    }
    Ok(None)
}

// The first one among the critical pairs of the second rule's left side in the first one's. `one` tells that both are
// one rule.
fn first_pair_apart(
    alloc: Global,
    rewriter: &mut Rewriter,
    task: &CompletionTask,
    first: &SaidRule,
    second: &SaidRule,
    one: bool,
) -> Result<Option<SaidEquation>, Halt>
    requires first { IsRuleIn rewriter.old.builder first.now }
    requires second { IsRuleIn rewriter.old.builder second.now }
    requires ready { IsReady rewriter.old }
    ensures found { IfOk result (λ found. Finds (task_in task.now) (rules_in rewriter.old)
        (pairs_in (rule_in first.now) (rule_in second.now) one ∷ []) (option_map sides_in found)) }
    ensures halts { IfErr result (Halts (task_in task.now) (rules_in rewriter.old)
        (pairs_in (rule_in first.now) (rule_in second.now) one ∷ [])) }
    ensures says { IfOk result (λ found. IfSome found (IsSaid rewriter.new.builder)) }
    ensures extends { Extends rewriter.old.builder rewriter.new.builder }
    ensures rules { rules_in rewriter.new ≡ rules_in rewriter.old }
    ensures ready { OnOk result (IsReady rewriter.new) }
{
    let pairs = pairs_between(alloc, &mut rewriter.builder, first, second, one)?;
    first_apart(alloc, rewriter, task, pairs)
}

// The critical pairs of the second rule's left side in the first one's, each with a line that says it. `one` tells that
// both are one rule.
fn pairs_between(
    alloc: Global,
    builder: &mut Builder,
    first: &SaidRule,
    second: &SaidRule,
    one: bool,
) -> Result<VecDeque<SaidEquation>, PairRefusal>
    requires first { IsRuleIn builder.old first.now }
    requires second { IsRuleIn builder.old second.now }
    ensures formed { IfOk result (λ pairs. pairs_in (rule_in first.now) (rule_in second.now) one
        ≡ Ok (map sides_in pairs.items)) }
    ensures refused { IfErr result (Stops (pairs_in (rule_in first.now) (rule_in second.now) one)) }
    ensures said { IfOk result (λ pairs. All (IsSaid builder.new) pairs.items) }
    ensures extends { Extends builder.old builder.new }
{
    let mut pairs = VecDeque::new(alloc);
    push_pairs(alloc, builder, &mut pairs, first, second, one)?;
    Ok(pairs)
}

// The first one of some equations whose sides have different normal forms, if there is one; each has the whole budget.
fn first_apart(
    alloc: Global,
    rewriter: &mut Rewriter,
    task: &CompletionTask,
    equations: VecDeque<SaidEquation>,
) -> Result<Option<SaidEquation>, Halt>
    requires equations { All (IsSaid rewriter.old.builder) equations.items }
    requires ready { IsReady rewriter.old }
    ensures found { IfOk result (λ found. apart_first (task_in task.now) (rules_in rewriter.old)
        (map sides_in equations.items) ≡ Ok (option_map sides_in found)) }
    ensures halts { IfErr result (Tells (apart_first (task_in task.now) (rules_in rewriter.old)
        (map sides_in equations.items))) }
    ensures says { IfOk result (λ found. IfSome found (IsSaid rewriter.new.builder)) }
    ensures extends { Extends rewriter.old.builder rewriter.new.builder }
    ensures rules { rules_in rewriter.new ≡ rules_in rewriter.old }
    ensures ready { OnOk result (IsReady rewriter.new) }
{
    let mut queue = equations;
    while let Some(equation) = queue.pop_front() {
        let joined = joins(alloc, rewriter, task, &equation)?;
        if !joined {
            return Ok(Some(equation));
        }
    }
    Ok(None)
}

// Whether the rules give both sides of an equation one normal form.
fn joins(
    alloc: Global,
    rewriter: &mut Rewriter,
    task: &CompletionTask,
    equation: &SaidEquation,
) -> Result<bool, Halt>
    requires equation { IsSaid rewriter.old.builder equation.now }
    requires ready { IsReady rewriter.old }
    ensures told { IfOk result (IsTold (task_in task.now) (rules_in rewriter.old) (sides_in equation.now)) }
    ensures halts { IfErr result (TellsOf (task_in task.now) (rules_in rewriter.old) (sides_in equation.now)) }
    ensures extends { Extends rewriter.old.builder rewriter.new.builder }
    ensures rules { rules_in rewriter.new ≡ rules_in rewriter.old }
    ensures ready { OnOk result (IsReady rewriter.new) }
{
    let found = rewriter.reduce(alloc, equation, task.budget)?;
    Ok(same_term(&found.left, &found.right))
}
