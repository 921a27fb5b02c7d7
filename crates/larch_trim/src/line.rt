ghost use Rattle.std.specs.Prelude.{◌≡◌, IfOk};
ghost use Rattle.larch_certificate.specs.declared.line.Line.TheVariants.{BoxLine, Fresh, Generated, Induct, Inst};
ghost use Rattle.larch_certificate.specs.declared.line.Line.TheVariants.{Observe, Partitioned, Refl, Repl, Row};
ghost use Rattle.larch_trim.specs.ByNumbers.{move_of};
ghost use Rattle.larch_verify_law.specs.Moves.{moved_line};

use crate::item::{copy_numbers, copy_variable, move_equation, move_items, move_numbers};
use crate::numbers::NewNumbers;
use crate::term::move_term;
use larch_base::{Memory, let_go};
use larch_certificate::{
    Bindings, BoxParts, Coded, CodedEquation, CodedEquations, CodedVar, CodedVars, Line, Numbers,
    Path,
};
use larch_term::Sort;
use std::alloc::Global;

/// The line with the new numbers of what it names.
#[tactic(auto, using(crate::proofs::Moving::row_stays, crate::proofs::Moving::generated_stays, crate::proofs::Moving::partitioned_stays))]
pub fn move_line(alloc: Global, numbers: &NewNumbers, line: &Line) -> Result<Line, Memory>
    ensures { IfOk result (λ moved. moved ≡ moved_line (move_of numbers.now) line.now) }
{
    match line {
        Line::Axiom(statement) => Ok(Line::Axiom(*statement)),
        Line::Hyp(number, hypothesis) => Ok(Line::Hyp(numbers.number(*number), *hypothesis)),
        Line::Row(row, sort) => copy_row(*row, sort),
        Line::Refl(term) => move_refl(alloc, numbers, term),
        Line::Sym(line) => Ok(Line::Sym(numbers.number(*line))),
        Line::Inst(line, bindings) => move_inst(alloc, numbers, *line, bindings),
        Line::Repl(line, place, by) => move_repl(alloc, numbers, *line, place, *by),
        Line::Equal(line) => Ok(Line::Equal(numbers.number(*line))),
        Line::BoxLine(parts, hypotheses) => move_box_line(alloc, numbers, parts, hypotheses),
        Line::Done => Ok(Line::Done),
        Line::Fresh(number, variables) => move_fresh(alloc, numbers, *number, variables),
        Line::Cases(first, second) => {
            Ok(Line::Cases(numbers.number(*first), numbers.number(*second)))
        }
        Line::Induct(line, variable, equation, boxes) => {
            move_induct(alloc, numbers, *line, variable, equation, boxes)
        }
        Line::Observe(line, equation, lines) => move_observe(
            alloc, numbers, *line, equation, lines,
        ),
        Line::Generated(number, sort, operators) => {
            copy_generated(alloc, numbers.number(*number), sort, operators)
        }
        Line::Partitioned(number, sort, operators) => {
            copy_partitioned(alloc, numbers.number(*number), sort, operators)
        }
    }
}

fn copy_row(row: u64, sort: &Option<Sort>) -> Result<Line, Memory>
    ensures { IfOk result (λ copied. copied ≡ Row row sort.now) }
{
    let sort = copy_sort(sort)?;
    Ok(Line::Row(row, sort))
}

fn copy_sort(sort: &Option<Sort>) -> Result<Option<Sort>, Memory>
    ensures { IfOk result (λ copied. copied ≡ sort.now) }
{
    match sort {
        Some(sort) => {
            let sort = sort.copy()?;
            Ok(Some(sort))
        }
        None => Ok(None),
    }
}

fn move_refl(alloc: Global, numbers: &NewNumbers, term: &Coded) -> Result<Line, Memory>
    ensures { IfOk result (λ moved. moved ≡ moved_line (move_of numbers.now) (Refl term.now)) }
{
    let term = move_term(alloc, numbers, term)?;
    Ok(Line::Refl(term))
}

fn move_inst(
    alloc: Global,
    numbers: &NewNumbers,
    line: u64,
    bindings: &Bindings,
) -> Result<Line, Memory>
    ensures { IfOk result (λ moved. moved ≡ moved_line (move_of numbers.now) (Inst line bindings.now)) }
{
    let bindings = move_items(alloc, numbers, bindings.as_slice())?;
    Ok(Line::Inst(numbers.number(line), bindings))
}

fn move_repl(
    alloc: Global,
    numbers: &NewNumbers,
    line: u64,
    place: &Path,
    by: u64,
) -> Result<Line, Memory>
    ensures { IfOk result (λ moved. moved ≡ moved_line (move_of numbers.now) (Repl line place.now by)) }
{
    let place = copy_numbers(alloc, place.as_slice())?;
    Ok(Line::Repl(numbers.number(line), place, numbers.number(by)))
}

fn move_box_line(
    alloc: Global,
    numbers: &NewNumbers,
    parts: &BoxParts,
    hypotheses: &CodedEquations,
) -> Result<Line, Memory>
    ensures { IfOk result (λ moved. moved ≡ moved_line (move_of numbers.now) (BoxLine parts.now hypotheses.now)) }
{
    let parts = move_items(alloc, numbers, parts.as_slice())?;
    match move_items(alloc, numbers, hypotheses.as_slice()) {
        Ok(hypotheses) => Ok(Line::BoxLine(parts, hypotheses)),
        Err(memory) => Err(let_go(memory, parts)),
    }
}

fn move_fresh(
    alloc: Global,
    numbers: &NewNumbers,
    number: u64,
    variables: &CodedVars,
) -> Result<Line, Memory>
    ensures { IfOk result (λ moved. moved ≡ moved_line (move_of numbers.now) (Fresh number variables.now)) }
{
    let variables = move_items(alloc, numbers, variables.as_slice())?;
    Ok(Line::Fresh(numbers.number(number), variables))
}

fn move_induct(
    alloc: Global,
    numbers: &NewNumbers,
    line: u64,
    variable: &CodedVar,
    equation: &CodedEquation,
    boxes: &Numbers,
) -> Result<Line, Memory>
    ensures { IfOk result (λ moved. moved
        ≡ moved_line (move_of numbers.now) (Induct line variable.now equation.now boxes.now)) }
{
    let boxes = move_numbers(alloc, numbers, boxes.as_slice())?;
    let variable = copy_variable(variable)?;
    match move_equation(alloc, numbers, equation) {
        Ok(equation) => Ok(Line::Induct(numbers.number(line), variable, equation, boxes)),
        Err(memory) => Err(let_go(memory, (boxes, variable))),
    }
}

fn move_observe(
    alloc: Global,
    numbers: &NewNumbers,
    line: u64,
    equation: &CodedEquation,
    lines: &Numbers,
) -> Result<Line, Memory>
    ensures { IfOk result (λ moved. moved ≡ moved_line (move_of numbers.now) (Observe line equation.now lines.now)) }
{
    let lines = move_numbers(alloc, numbers, lines.as_slice())?;
    let equation = move_equation(alloc, numbers, equation)?;
    Ok(Line::Observe(numbers.number(line), equation, lines))
}

fn copy_generated(
    alloc: Global,
    number: u64,
    sort: &Sort,
    operators: &Numbers,
) -> Result<Line, Memory>
    ensures { IfOk result (λ copied. copied ≡ Generated number sort.now operators.now) }
{
    let operators = copy_numbers(alloc, operators.as_slice())?;
    let sort = sort.copy()?;
    Ok(Line::Generated(number, sort, operators))
}

fn copy_partitioned(
    alloc: Global,
    number: u64,
    sort: &Sort,
    operators: &Numbers,
) -> Result<Line, Memory>
    ensures { IfOk result (λ copied. copied ≡ Partitioned number sort.now operators.now) }
{
    let operators = copy_numbers(alloc, operators.as_slice())?;
    let sort = sort.copy()?;
    Ok(Line::Partitioned(number, sort, operators))
}
