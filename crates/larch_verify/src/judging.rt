ghost use Rattle.std.specs.Prelude.{◌≡◌, IsTrue, IfOk, IfSome, OnOk};
ghost use Rattle.std.specs.Option.{option_map};
ghost use Rattle.larch_verify_meaning.specs.Run.{judge};
ghost use Rattle.larch_verify_pool.specs.Pooled.{Grows};
ghost use Rattle.larch_verify_history.specs.Past.{IsPast, IsEquated, IsStated, equated_in, stated_in, history_of};
ghost use Rattle.larch_verify_history.specs.declared.stated.Stated.TheVariants.{Equal};
ghost use Rattle.larch_verify.specs.Checking.{AreStatements};
ghost use Rattle.larch_verify.specs.Kinds.{goes_by_boxes, says_equations};

use larch_base::Memory;
use larch_certificate::Line;
use larch_term::Theory;
use larch_verify_box_rules::{Induction, judge_cases, judge_fresh, judge_induct};
use larch_verify_clause_rules::{judge_generated, judge_observe, judge_partitioned};
use larch_verify_history::{Context, Equated, KeptHistory, Stated};
use larch_verify_pool::Pool;
use larch_verify_rules::{
    judge_axiom, judge_equal, judge_hyp, judge_inst, judge_refl, judge_repl, judge_row, judge_sym,
};
use std::alloc::Global;

// What a line says, if it says something. The theory's statements are given by numbers.
pub(crate) fn judge(
    alloc: Global,
    pool: &mut Pool,
    theory: &Theory,
    axioms: &[Stated],
    past: &KeptHistory,
    line: &Line,
) -> Result<Option<Stated>, Memory>
    requires past { IsPast theory.now pool.old past.now }
    requires axioms { AreStatements theory.now pool.old axioms.now }
    ensures within { IfOk result (λ o. IfSome o (IsStated pool.new)) }
    ensures says { IfOk result (λ o. option_map (stated_in pool.new) o
        ≡ judge theory.now (history_of pool.old past.now) line.now) }
    ensures grows { OnOk result (Grows pool.old pool.new) }
{
    let context = Context { theory, past };
    match line {
        Line::Axiom(number) => {
            let stated = judge_axiom(alloc, axioms, *number)?;
            Ok(stated)
        }
        Line::Row(number, sort) => {
            let stated = judge_row(alloc, pool, *number, sort)?;
            Ok(stated)
        }
        Line::Generated(of_box, sort, operators) => {
            let stated = judge_generated(
                alloc,
                pool,
                &context,
                *of_box,
                sort,
                operators.as_slice(),
            )?;
            Ok(stated)
        }
        Line::Partitioned(of_box, sort, operators) => {
            let stated = judge_partitioned(
                alloc,
                pool,
                &context,
                *of_box,
                sort,
                operators.as_slice(),
            )?;
            Ok(stated)
        }
        Line::BoxLine(_, _) | Line::Done => Ok(None),
        _ => {
            let sides = judge_equation(alloc, pool, &context, line)?;
            Ok(equal(sides))
        }
    }
}

// The equation that a line says by a rule that says equations, if it says one.
fn judge_equation(
    alloc: Global,
    pool: &mut Pool,
    context: &Context<'_>,
    line: &Line,
) -> Result<Option<Equated>, Memory>
    requires past { IsPast context.now.theory.now pool.old context.now.past.now }
    requires line { IsTrue (says_equations line.now) }
    ensures within { IfOk result (λ o. IfSome o (IsEquated pool.new)) }
    ensures says { IfOk result (λ o. option_map (equated_in pool.new) o
        ≡ judge context.now.theory.now (history_of pool.old context.now.past.now) line.now) }
    ensures grows { OnOk result (Grows pool.old pool.new) }
{
    match line {
        Line::Hyp(of_box, number) => Ok(judge_hyp(context.past, *of_box, *number)),
        Line::Refl(term) => {
            let sides = judge_refl(alloc, pool, context, term)?;
            Ok(sides)
        }
        Line::Sym(of_line) => Ok(judge_sym(context.past, *of_line)),
        Line::Inst(of_line, bindings) => {
            let sides = judge_inst(alloc, pool, context, *of_line, bindings.as_slice())?;
            Ok(sides)
        }
        Line::Repl(of_line, place, by) => {
            let sides = judge_repl(alloc, pool, context, *of_line, place.as_slice(), *by)?;
            Ok(sides)
        }
        Line::Equal(of_line) => {
            let sides = judge_equal(alloc, pool, context, *of_line)?;
            Ok(sides)
        }
        _ => {
            let sides = judge_by_boxes(alloc, pool, context, line)?;
            Ok(sides)
        }
    }
}

// The equation that a line says by closed boxes, or by a clause and what it wants shown, if it says one.
fn judge_by_boxes(
    alloc: Global,
    pool: &mut Pool,
    context: &Context<'_>,
    line: &Line,
) -> Result<Option<Equated>, Memory>
    requires past { IsPast context.now.theory.now pool.old context.now.past.now }
    requires line { IsTrue (goes_by_boxes line.now) }
    ensures within { IfOk result (λ o. IfSome o (IsEquated pool.new)) }
    ensures says { IfOk result (λ o. option_map (equated_in pool.new) o
        ≡ judge context.now.theory.now (history_of pool.old context.now.past.now) line.now) }
    ensures grows { OnOk result (Grows pool.old pool.new) }
{
    match line {
        Line::Fresh(of_box, variables) => {
            let sides = judge_fresh(alloc, pool, context, *of_box, variables.as_slice())?;
            Ok(sides)
        }
        Line::Cases(first, second) => {
            let sides = judge_cases(alloc, pool, context, *first, *second)?;
            Ok(sides)
        }
        Line::Induct(clause, variable, equation, boxes) => {
            let induction = Induction { variable, equation };
            let boxes = boxes.as_slice();
            let sides = judge_induct(alloc, pool, context, *clause, &induction, boxes)?;
            Ok(sides)
        }
        Line::Observe(clause, equation, lines) => {
            let sides = judge_observe(alloc, pool, context, *clause, equation, lines.as_slice())?;
            Ok(sides)
        }
        // Other lines don't come here.
        _ => Ok(None),
    }
}

// The statement that two terms are equal.
fn equal(sides: Option<Equated>) -> Option<Stated>
    ensures { result ≡ option_map Equal sides }
{
    let sides = sides?;
    Some(Stated::Equal(sides))
}
