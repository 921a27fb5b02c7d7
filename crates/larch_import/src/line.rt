ghost use Rattle.std.specs.Prelude.{◌≡◌, IfOk, option_map};
ghost use Rattle.larch_certificate.specs.declared.line.Line.TheVariants.{BoxLine, Fresh, Generated, Induct, Inst};
ghost use Rattle.larch_certificate.specs.declared.line.Line.TheVariants.{Observe, Partitioned, Refl, Repl, Row};
ghost use Rattle.larch_import.specs.ByWords.{move_of};
ghost use Rattle.larch_verify_law.specs.Moves.{moved_line};

use crate::item::{
    copy_numbers, keep_numbers, move_equation, move_items, move_operators, move_variable,
};
use crate::term::move_term;
use crate::words::NewWords;
use larch_base::{Memory, let_go};
use larch_certificate::{
    Bindings, BoxParts, Coded, CodedEquation, CodedEquations, CodedVar, CodedVars, Line, Numbers,
    Path,
};
use larch_term::Sort;
use std::alloc::Global;

/// The line by new words.
pub fn move_line(alloc: Global, words: &NewWords, line: &Line) -> Result<Line, Memory>
    ensures { IfOk result (λ moved. moved ≡ moved_line (move_of words.now) line.now) }
{
    match line {
        Line::Axiom(statement) => Ok(Line::Axiom(words.statement(*statement))),
        Line::Hyp(number, hypothesis) => Ok(Line::Hyp(*number, *hypothesis)),
        Line::Row(row, sort) => move_row(alloc, words, *row, sort),
        Line::Refl(term) => move_refl(alloc, words, term),
        Line::Sym(line) => Ok(Line::Sym(*line)),
        Line::Inst(line, bindings) => move_inst(alloc, words, *line, bindings),
        Line::Repl(line, place, by) => move_repl(alloc, words, *line, place, *by),
        Line::Equal(line) => Ok(Line::Equal(*line)),
        Line::BoxLine(parts, hypotheses) => move_box_line(alloc, words, parts, hypotheses),
        Line::Done => Ok(Line::Done),
        Line::Fresh(number, variables) => move_fresh(alloc, words, *number, variables),
        Line::Cases(first, second) => Ok(Line::Cases(*first, *second)),
        Line::Induct(line, variable, equation, boxes) => {
            move_induct(alloc, words, *line, variable, equation, boxes)
        }
        Line::Observe(line, equation, lines) => move_observe(alloc, words, *line, equation, lines),
        Line::Generated(number, sort, operators) => {
            move_generated(alloc, words, *number, sort, operators)
        }
        Line::Partitioned(number, sort, operators) => {
            move_partitioned(alloc, words, *number, sort, operators)
        }
    }
}

fn move_row(alloc: Global, words: &NewWords, row: u64, sort: &Option<Sort>) -> Result<Line, Memory>
    ensures { IfOk result (λ moved. moved ≡ moved_line (move_of words.now) (Row row sort.now)) }
{
    let sort = move_sort(alloc, words, sort)?;
    Ok(Line::Row(row, sort))
}

fn move_sort(alloc: Global, words: &NewWords, sort: &Option<Sort>) -> Result<Option<Sort>, Memory>
    ensures { IfOk result (λ moved. moved ≡ option_map (move_of words.now).renaming.sort sort.now) }
{
    match sort {
        Some(sort) => {
            let sort = words.sort(alloc, sort)?;
            Ok(Some(sort))
        }
        None => Ok(None),
    }
}

fn move_refl(alloc: Global, words: &NewWords, term: &Coded) -> Result<Line, Memory>
    ensures { IfOk result (λ moved. moved ≡ moved_line (move_of words.now) (Refl term.now)) }
{
    let term = move_term(alloc, words, term)?;
    Ok(Line::Refl(term))
}

fn move_inst(
    alloc: Global,
    words: &NewWords,
    line: u64,
    bindings: &Bindings,
) -> Result<Line, Memory>
    ensures { IfOk result (λ moved. moved ≡ moved_line (move_of words.now) (Inst line bindings.now)) }
{
    let bindings = move_items(alloc, words, bindings.as_slice())?;
    Ok(Line::Inst(line, bindings))
}

fn move_repl(
    alloc: Global,
    words: &NewWords,
    line: u64,
    place: &Path,
    by: u64,
) -> Result<Line, Memory>
    ensures { IfOk result (λ moved. moved ≡ moved_line (move_of words.now) (Repl line place.now by)) }
{
    let place = copy_numbers(alloc, place.as_slice())?;
    Ok(Line::Repl(line, place, by))
}

fn move_box_line(
    alloc: Global,
    words: &NewWords,
    parts: &BoxParts,
    hypotheses: &CodedEquations,
) -> Result<Line, Memory>
    ensures { IfOk result (λ moved. moved ≡ moved_line (move_of words.now) (BoxLine parts.now hypotheses.now)) }
{
    let parts = move_items(alloc, words, parts.as_slice())?;
    match move_items(alloc, words, hypotheses.as_slice()) {
        Ok(hypotheses) => Ok(Line::BoxLine(parts, hypotheses)),
        Err(memory) => Err(let_go(memory, parts)),
    }
}

fn move_fresh(
    alloc: Global,
    words: &NewWords,
    number: u64,
    variables: &CodedVars,
) -> Result<Line, Memory>
    ensures { IfOk result (λ moved. moved ≡ moved_line (move_of words.now) (Fresh number variables.now)) }
{
    let variables = move_items(alloc, words, variables.as_slice())?;
    Ok(Line::Fresh(number, variables))
}

fn move_induct(
    alloc: Global,
    words: &NewWords,
    line: u64,
    variable: &CodedVar,
    equation: &CodedEquation,
    boxes: &Numbers,
) -> Result<Line, Memory>
    ensures { IfOk result (λ moved. moved
        ≡ moved_line (move_of words.now) (Induct line variable.now equation.now boxes.now)) }
{
    let boxes = keep_numbers(alloc, boxes.as_slice())?;
    let variable = move_variable(alloc, words, variable)?;
    match move_equation(alloc, words, equation) {
        Ok(equation) => Ok(Line::Induct(line, variable, equation, boxes)),
        Err(memory) => Err(let_go(memory, (boxes, variable))),
    }
}

fn move_observe(
    alloc: Global,
    words: &NewWords,
    line: u64,
    equation: &CodedEquation,
    lines: &Numbers,
) -> Result<Line, Memory>
    ensures { IfOk result (λ moved. moved ≡ moved_line (move_of words.now) (Observe line equation.now lines.now)) }
{
    let lines = keep_numbers(alloc, lines.as_slice())?;
    let equation = move_equation(alloc, words, equation)?;
    Ok(Line::Observe(line, equation, lines))
}

fn move_generated(
    alloc: Global,
    words: &NewWords,
    number: u64,
    sort: &Sort,
    operators: &Numbers,
) -> Result<Line, Memory>
    ensures { IfOk result (λ moved. moved ≡ moved_line (move_of words.now) (Generated number sort.now operators.now)) }
{
    let operators = move_operators(alloc, words, operators.as_slice())?;
    let sort = words.sort(alloc, sort)?;
    Ok(Line::Generated(number, sort, operators))
}

fn move_partitioned(
    alloc: Global,
    words: &NewWords,
    number: u64,
    sort: &Sort,
    operators: &Numbers,
) -> Result<Line, Memory>
    ensures { IfOk result (λ moved. moved
        ≡ moved_line (move_of words.now) (Partitioned number sort.now operators.now)) }
{
    let operators = move_operators(alloc, words, operators.as_slice())?;
    let sort = words.sort(alloc, sort)?;
    Ok(Line::Partitioned(number, sort, operators))
}
