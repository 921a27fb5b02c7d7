ghost use Rattle.std.specs.Prelude.{◌≡◌, IfOk, IfErr, IfSome, OnOk, Ok, option_map};
ghost use Rattle.larch_complete_meaning.specs.Rounds.{orient, settle as settled};
ghost use Rattle.larch_complete_pairs.specs.Said.{IsSaid, sides_in};
ghost use Rattle.larch_complete_rounds.specs.Halt.{Tells};
ghost use Rattle.larch_complete_rounds.specs.Ready.{IsReady, IsSmall, rules_in};
ghost use Rattle.larch_complete_rounds.specs.Task.{task_in};
ghost use Rattle.larch_derive.specs.Predicates.{Extends};
ghost use Rattle.larch_rewrite_meaning.specs.Sides.{flip};

use crate::halt::Halt;
use crate::rewriter::Rewriter;
use crate::task::CompletionTask;
use larch_base::Memory;
use larch_complete_meaning::CompletionAnswer;
use larch_complete_pairs::SaidEquation;
use larch_derive::Builder;
use larch_derive_lines::push_sym;
use larch_order::Precedence;
use larch_term::{Statement, same_term};
use std::alloc::Global;

/// The rule that an equation makes; none where the rules give both sides one normal form. The rules stay as they are.
/// After a halt the builder may have further lines, none of them bad.
pub fn settle(
    alloc: Global,
    rewriter: &mut Rewriter,
    task: &CompletionTask,
    equation: &SaidEquation,
) -> Result<Option<SaidEquation>, Halt>
    requires equation { IsSaid rewriter.old.builder equation.now }
    requires ready { IsReady rewriter.old }
    ensures settled { IfOk result (λ rule. settled (task_in task.now) (rules_in rewriter.old) (sides_in equation.now)
        ≡ Ok (option_map sides_in rule)) }
    ensures halts { IfErr result
        (Tells (settled (task_in task.now) (rules_in rewriter.old) (sides_in equation.now))) }
    ensures small { IfOk result (λ rule. IfSome rule IsSmall) }
    ensures says { IfOk result (λ rule. IfSome rule (IsSaid rewriter.new.builder)) }
    ensures extends { Extends rewriter.old.builder rewriter.new.builder }
    ensures rules { rules_in rewriter.new ≡ rules_in rewriter.old }
    ensures ready { OnOk result (IsReady rewriter.new) }
{
    let found = rewriter.reduce(alloc, equation, task.budget)?;
    if same_term(&found.left, &found.right) {
        return Ok(None);
    }
    let rule = orient_equation(&mut rewriter.builder, &task.precedence, found)?;
    Ok(Some(rule))
}

// The rule from the greater side of an equation to the other one.
#[tactic(auto, using(larch_derive::proofs::Growth::extends_same))]
fn orient_equation(
    builder: &mut Builder,
    precedence: &Precedence,
    equation: SaidEquation,
) -> Result<SaidEquation, Halt>
    requires said { IsSaid builder.old equation }
    requires small { IsSmall equation }
    ensures oriented { IfOk result (λ e. orient precedence.now (sides_in equation) ≡ Ok (sides_in e)) }
    ensures halts { IfErr result (Tells (orient precedence.now (sides_in equation))) }
    ensures small { IfOk result IsSmall }
    ensures says { IfOk result (IsSaid builder.new) }
    ensures extends { Extends builder.old builder.new }
{
    if precedence.greater(&equation.left, &equation.right) {
        return Ok(equation);
    }
    if precedence.greater(&equation.right, &equation.left) {
        let rule = exchange_sides(builder, equation)?;
        return Ok(rule);
    }
    let SaidEquation { left, right, .. } = equation;
    Err(Halt::Ends(CompletionAnswer::Unoriented(Statement::Equation(left, right))))
}

// The equation with its sides exchanged.
#[tactic(auto, using(larch_derive::proofs::Growth::extends_same))]
fn exchange_sides(builder: &mut Builder, equation: SaidEquation) -> Result<SaidEquation, Memory>
    requires { IsSaid builder.old equation }
    ensures sides { IfOk result (λ e. sides_in e ≡ flip (sides_in equation)) }
    ensures says { IfOk result (IsSaid builder.new) }
    ensures extends { Extends builder.old builder.new }
{
    let line = push_sym(builder, equation.line)?;
    let SaidEquation { left, right, .. } = equation;
    Ok(SaidEquation {
        left: right,
        right: left,
        line,
    })
}
