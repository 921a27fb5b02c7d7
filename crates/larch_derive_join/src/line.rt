ghost use Rattle.std.specs.Prelude.{◌≡◌, IfOk};
ghost use Rattle.larch_certificate.specs.declared.line.Line.TheVariants.{BoxLine, Fresh, Generated, Induct, Inst};
ghost use Rattle.larch_certificate.specs.declared.line.Line.TheVariants.{Observe, Partitioned, Refl, Repl, Row};
ghost use Rattle.larch_derive_join.specs.Joined.{cites, coded_true, joined_line};
ghost use Rattle.larch_derive_join.specs.ByShift.{move_of};
ghost use Rattle.larch_verify_law.specs.Moves.{moved_line};

use crate::item::{copy_numbers, copy_variable, move_boxes, move_equation, move_items, move_lines};
use crate::lemma::Lemma;
use crate::shift::Shift;
use crate::term::move_term;
use larch_base::{Memory, Sequence, let_go};
use larch_certificate::{
    Bindings, BoxParts, Coded, CodedEquation, CodedEquations, CodedTerms, CodedVar, CodedVars,
    Line, Numbers, Path, Symbol,
};
use larch_term::{BuiltIn, Sort};
use std::alloc::Global;

/// What stands for a line of a part behind others: the line with its numbers moved on; where it cites a lemma, the
/// lemma's equation once more.
pub fn join_line(alloc: Global, shift: &Shift<'_>, line: &Line) -> Result<Line, Memory>
    ensures { IfOk result (λ joined. joined
        ≡ joined_line shift.now.by shift.now.lemmas.now shift.now.part.now line.now) }
{
    match shift.lemma(line) {
        Some(lemma) => Ok(cite(alloc, lemma)),
        None => move_line(alloc, shift, line),
    }
}

// What says the lemma's equation once more; or, where it is a clause, any equation.
fn cite(alloc: Global, lemma: Lemma) -> Line
    ensures { result ≡ cites lemma }
{
    if lemma.clause {
        Line::Refl(truth())
    } else {
        Line::Inst(lemma.line, Sequence::new(alloc))
    }
}

// The truth value true.
fn truth() -> Coded
    ensures { result ≡ coded_true }
{
    Coded::app(Symbol::BuiltIn(BuiltIn::True), CodedTerms::none())
}

// The line with its numbers moved on.
#[tactic(auto, using(crate::proofs::Moving::row_stays, crate::proofs::Moving::generated_stays, crate::proofs::Moving::partitioned_stays))]
fn move_line(alloc: Global, shift: &Shift<'_>, line: &Line) -> Result<Line, Memory>
    ensures { IfOk result (λ moved. moved ≡ moved_line (move_of shift.now) line.now) }
{
    match line {
        Line::Axiom(statement) => Ok(Line::Axiom(*statement)),
        Line::Hyp(number, hypothesis) => Ok(Line::Hyp(shift.number(*number), *hypothesis)),
        Line::Row(row, sort) => copy_row(*row, sort),
        Line::Refl(term) => move_refl(alloc, shift, term),
        Line::Sym(line) => Ok(Line::Sym(shift.line(*line))),
        Line::Inst(line, bindings) => move_inst(alloc, shift, *line, bindings),
        Line::Repl(line, place, by) => move_repl(alloc, shift, *line, place, *by),
        Line::Equal(line) => Ok(Line::Equal(shift.line(*line))),
        Line::BoxLine(parts, hypotheses) => move_box_line(alloc, shift, parts, hypotheses),
        Line::Done => Ok(Line::Done),
        Line::Fresh(number, variables) => move_fresh(alloc, shift, *number, variables),
        Line::Cases(first, second) => {
            Ok(Line::Cases(shift.number(*first), shift.number(*second)))
        }
        Line::Induct(line, variable, equation, boxes) => {
            move_induct(alloc, shift, *line, variable, equation, boxes)
        }
        Line::Observe(line, equation, lines) => move_observe(alloc, shift, *line, equation, lines),
        Line::Generated(number, sort, operators) => {
            copy_generated(alloc, shift.number(*number), sort, operators)
        }
        Line::Partitioned(number, sort, operators) => {
            copy_partitioned(alloc, shift.number(*number), sort, operators)
        }
    }
}

fn copy_row(row: u64, sort: &Option<Sort>) -> Result<Line, Memory>
    ensures { IfOk result (λ copied. copied ≡ Row row sort.now) }
{
    let sort = copy_sort(sort)?;
    Ok(Line::Row(row, sort))
}

fn copy_sort(sort: &Option<Sort>) -> Result<Option<Sort>, Memory>
    ensures { IfOk result (λ copied. copied ≡ sort.now) }
{
    match sort {
        Some(sort) => {
            let sort = sort.copy()?;
            Ok(Some(sort))
        }
        None => Ok(None),
    }
}

fn move_refl(alloc: Global, shift: &Shift<'_>, term: &Coded) -> Result<Line, Memory>
    ensures { IfOk result (λ moved. moved ≡ moved_line (move_of shift.now) (Refl term.now)) }
{
    let term = move_term(alloc, shift, term)?;
    Ok(Line::Refl(term))
}

fn move_inst(
    alloc: Global,
    shift: &Shift<'_>,
    line: u64,
    bindings: &Bindings,
) -> Result<Line, Memory>
    ensures { IfOk result (λ moved. moved ≡ moved_line (move_of shift.now) (Inst line bindings.now)) }
{
    let bindings = move_items(alloc, shift, bindings.as_slice())?;
    Ok(Line::Inst(shift.line(line), bindings))
}

fn move_repl(
    alloc: Global,
    shift: &Shift<'_>,
    line: u64,
    place: &Path,
    by: u64,
) -> Result<Line, Memory>
    ensures { IfOk result (λ moved. moved ≡ moved_line (move_of shift.now) (Repl line place.now by)) }
{
    let place = copy_numbers(alloc, place.as_slice())?;
    Ok(Line::Repl(shift.line(line), place, shift.line(by)))
}

fn move_box_line(
    alloc: Global,
    shift: &Shift<'_>,
    parts: &BoxParts,
    hypotheses: &CodedEquations,
) -> Result<Line, Memory>
    ensures { IfOk result (λ moved. moved ≡ moved_line (move_of shift.now) (BoxLine parts.now hypotheses.now)) }
{
    let parts = move_items(alloc, shift, parts.as_slice())?;
    match move_items(alloc, shift, hypotheses.as_slice()) {
        Ok(hypotheses) => Ok(Line::BoxLine(parts, hypotheses)),
        Err(memory) => Err(let_go(memory, parts)),
    }
}

fn move_fresh(
    alloc: Global,
    shift: &Shift<'_>,
    number: u64,
    variables: &CodedVars,
) -> Result<Line, Memory>
    ensures { IfOk result (λ moved. moved ≡ moved_line (move_of shift.now) (Fresh number variables.now)) }
{
    let variables = move_items(alloc, shift, variables.as_slice())?;
    Ok(Line::Fresh(shift.number(number), variables))
}

fn move_induct(
    alloc: Global,
    shift: &Shift<'_>,
    line: u64,
    variable: &CodedVar,
    equation: &CodedEquation,
    boxes: &Numbers,
) -> Result<Line, Memory>
    ensures { IfOk result (λ moved. moved
        ≡ moved_line (move_of shift.now) (Induct line variable.now equation.now boxes.now)) }
{
    let boxes = move_boxes(alloc, shift, boxes.as_slice())?;
    let variable = copy_variable(variable)?;
    match move_equation(alloc, shift, equation) {
        Ok(equation) => Ok(Line::Induct(shift.line(line), variable, equation, boxes)),
        Err(memory) => Err(let_go(memory, (boxes, variable))),
    }
}

fn move_observe(
    alloc: Global,
    shift: &Shift<'_>,
    line: u64,
    equation: &CodedEquation,
    lines: &Numbers,
) -> Result<Line, Memory>
    ensures { IfOk result (λ moved. moved ≡ moved_line (move_of shift.now) (Observe line equation.now lines.now)) }
{
    let lines = move_lines(alloc, shift, lines.as_slice())?;
    let equation = move_equation(alloc, shift, equation)?;
    Ok(Line::Observe(shift.line(line), equation, lines))
}

fn copy_generated(
    alloc: Global,
    number: u64,
    sort: &Sort,
    operators: &Numbers,
) -> Result<Line, Memory>
    ensures { IfOk result (λ copied. copied ≡ Generated number sort.now operators.now) }
{
    let operators = copy_numbers(alloc, operators.as_slice())?;
    let sort = sort.copy()?;
    Ok(Line::Generated(number, sort, operators))
}

fn copy_partitioned(
    alloc: Global,
    number: u64,
    sort: &Sort,
    operators: &Numbers,
) -> Result<Line, Memory>
    ensures { IfOk result (λ copied. copied ≡ Partitioned number sort.now operators.now) }
{
    let operators = copy_numbers(alloc, operators.as_slice())?;
    let sort = sort.copy()?;
    Ok(Line::Partitioned(number, sort, operators))
}
