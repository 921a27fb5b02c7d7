ghost use Rattle.std.specs.Prelude.{◌≡◌, IfOk};
ghost use Rattle.larch_certificate_text.specs.CertificateLineLine.TheVariants.{BoxLine, Fresh, Generated, Induct, Inst};
ghost use Rattle.larch_certificate_text.specs.CertificateLineLine.TheVariants.{Observe, Partitioned, Refl, Repl, Row};

use larch_certificate_text::from_certificate::{
    Binding, Bindings, BoxPart, BoxParts, Coded, CodedEquation, CodedEquations, CodedVar,
    CodedVars, Line, Numbers, Path,
};
use larch_term::from_base::{Memory, Name, Sequence, let_go};
use std::alloc::Global;

// A line once more.
pub(crate) fn copy_line(alloc: Global, line: &Line) -> Result<Line, Memory>
    ensures { IfOk result (λ copied. copied ≡ line.now) }
{
    match line {
        Line::Axiom(statement) => Ok(Line::Axiom(*statement)),
        Line::Hyp(number, hypothesis) => Ok(Line::Hyp(*number, *hypothesis)),
        Line::Row(row, sort) => copy_row(*row, sort),
        Line::Refl(term) => copy_refl(term),
        Line::Sym(line) => Ok(Line::Sym(*line)),
        Line::Inst(line, bindings) => copy_inst(alloc, *line, bindings),
        Line::Repl(line, place, by) => copy_repl(alloc, *line, place, *by),
        Line::Equal(line) => Ok(Line::Equal(*line)),
        Line::BoxLine(parts, hypotheses) => copy_box_line(alloc, parts, hypotheses),
        Line::Done => Ok(Line::Done),
        Line::Fresh(number, variables) => copy_fresh(alloc, *number, variables),
        Line::Cases(first, second) => Ok(Line::Cases(*first, *second)),
        Line::Induct(line, variable, equation, boxes) => {
            copy_induct(alloc, *line, variable, equation, boxes)
        }
        Line::Observe(line, equation, lines) => copy_observe(alloc, *line, equation, lines),
        Line::Generated(number, sort, operators) => copy_generated(alloc, *number, sort, operators),
        Line::Partitioned(number, sort, operators) => {
            copy_partitioned(alloc, *number, sort, operators)
        }
    }
}

fn copy_row(row: u64, sort: &Option<Name>) -> Result<Line, Memory>
    ensures { IfOk result (λ copied. copied ≡ Row row sort.now) }
{
    let sort = copy_sort(sort)?;
    Ok(Line::Row(row, sort))
}

fn copy_refl(term: &Coded) -> Result<Line, Memory>
    ensures { IfOk result (λ copied. copied ≡ Refl term.now) }
{
    let term = term.copy()?;
    Ok(Line::Refl(term))
}

fn copy_inst(alloc: Global, line: u64, bindings: &Bindings) -> Result<Line, Memory>
    ensures { IfOk result (λ copied. copied ≡ Inst line bindings.now) }
{
    let bindings = copy_bindings(alloc, bindings.as_slice())?;
    Ok(Line::Inst(line, bindings))
}

fn copy_repl(alloc: Global, line: u64, place: &Path, by: u64) -> Result<Line, Memory>
    ensures { IfOk result (λ copied. copied ≡ Repl line place.now by) }
{
    let place = copy_numbers(alloc, place.as_slice())?;
    Ok(Line::Repl(line, place, by))
}

fn copy_box_line(
    alloc: Global,
    parts: &BoxParts,
    hypotheses: &CodedEquations,
) -> Result<Line, Memory>
    ensures { IfOk result (λ copied. copied ≡ BoxLine parts.now hypotheses.now) }
{
    let parts = copy_parts(alloc, parts.as_slice())?;
    match copy_equations(alloc, hypotheses.as_slice()) {
        Ok(hypotheses) => Ok(Line::BoxLine(parts, hypotheses)),
        Err(memory) => Err(let_go(memory, parts)),
    }
}

fn copy_fresh(alloc: Global, number: u64, variables: &CodedVars) -> Result<Line, Memory>
    ensures { IfOk result (λ copied. copied ≡ Fresh number variables.now) }
{
    let variables = copy_variables(alloc, variables.as_slice())?;
    Ok(Line::Fresh(number, variables))
}

fn copy_induct(
    alloc: Global,
    line: u64,
    variable: &CodedVar,
    equation: &CodedEquation,
    boxes: &Numbers,
) -> Result<Line, Memory>
    ensures { IfOk result (λ copied. copied ≡ Induct line variable.now equation.now boxes.now) }
{
    let boxes = copy_numbers(alloc, boxes.as_slice())?;
    let variable = copy_variable(variable)?;
    match copy_equation(equation) {
        Ok(equation) => Ok(Line::Induct(line, variable, equation, boxes)),
        Err(memory) => Err(let_go(memory, (boxes, variable))),
    }
}

fn copy_observe(
    alloc: Global,
    line: u64,
    equation: &CodedEquation,
    lines: &Numbers,
) -> Result<Line, Memory>
    ensures { IfOk result (λ copied. copied ≡ Observe line equation.now lines.now) }
{
    let lines = copy_numbers(alloc, lines.as_slice())?;
    let equation = copy_equation(equation)?;
    Ok(Line::Observe(line, equation, lines))
}

fn copy_generated(
    alloc: Global,
    number: u64,
    sort: &Name,
    operators: &Numbers,
) -> Result<Line, Memory>
    ensures { IfOk result (λ copied. copied ≡ Generated number sort.now operators.now) }
{
    let operators = copy_numbers(alloc, operators.as_slice())?;
    let sort = sort.copy()?;
    Ok(Line::Generated(number, sort, operators))
}

fn copy_partitioned(
    alloc: Global,
    number: u64,
    sort: &Name,
    operators: &Numbers,
) -> Result<Line, Memory>
    ensures { IfOk result (λ copied. copied ≡ Partitioned number sort.now operators.now) }
{
    let operators = copy_numbers(alloc, operators.as_slice())?;
    let sort = sort.copy()?;
    Ok(Line::Partitioned(number, sort, operators))
}

fn copy_sort(sort: &Option<Name>) -> Result<Option<Name>, Memory>
    ensures { IfOk result (λ copied. copied ≡ sort.now) }
{
    match sort {
        Some(sort) => {
            let sort = sort.copy()?;
            Ok(Some(sort))
        }
        None => Ok(None),
    }
}

fn copy_numbers(alloc: Global, numbers: &[u64]) -> Result<Numbers, Memory>
    ensures { IfOk result (λ copied. copied ≡ numbers.now) }
{
    let mut copied = Sequence::new(alloc);
    for number in numbers {
        copied.push(*number)?;
    }
    Ok(copied)
}

fn copy_parts(alloc: Global, parts: &[BoxPart]) -> Result<BoxParts, Memory>
    ensures { IfOk result (λ copied. copied ≡ parts.now) }
{
    let mut copied = Sequence::new(alloc);
    for part in parts {
        let sort = part.sort.copy()?;
        let predicate = part.predicate;
        copied.push(BoxPart { sort, predicate })?;
    }
    Ok(copied)
}

fn copy_variable(variable: &CodedVar) -> Result<CodedVar, Memory>
    ensures { IfOk result (λ copied. copied ≡ variable.now) }
{
    let name = variable.name.copy()?;
    let sort = variable.sort.copy()?;
    Ok(CodedVar { name, sort })
}

fn copy_variables(alloc: Global, variables: &[CodedVar]) -> Result<CodedVars, Memory>
    ensures { IfOk result (λ copied. copied ≡ variables.now) }
{
    let mut copied = Sequence::new(alloc);
    for variable in variables {
        let variable = copy_variable(variable)?;
        copied.push(variable)?;
    }
    Ok(copied)
}

fn copy_equation(equation: &CodedEquation) -> Result<CodedEquation, Memory>
    ensures { IfOk result (λ copied. copied ≡ equation.now) }
{
    let left = equation.left.copy()?;
    match equation.right.copy() {
        Ok(right) => Ok(CodedEquation { left, right }),
        Err(memory) => Err(let_go(memory, left)),
    }
}

fn copy_equations(alloc: Global, equations: &[CodedEquation]) -> Result<CodedEquations, Memory>
    ensures { IfOk result (λ copied. copied ≡ equations.now) }
{
    let mut copied = Sequence::new(alloc);
    for equation in equations {
        let equation = copy_equation(equation)?;
        copied.push(equation)?;
    }
    Ok(copied)
}

fn copy_binding(binding: &Binding) -> Result<Binding, Memory>
    ensures { IfOk result (λ copied. copied ≡ binding.now) }
{
    let name = binding.name.copy()?;
    let sort = binding.sort.copy()?;
    match binding.term.copy() {
        Ok(term) => Ok(Binding { name, sort, term }),
        Err(memory) => Err(let_go(memory, (name, sort))),
    }
}

fn copy_bindings(alloc: Global, bindings: &[Binding]) -> Result<Bindings, Memory>
    ensures { IfOk result (λ copied. copied ≡ bindings.now) }
{
    let mut copied = Sequence::new(alloc);
    for binding in bindings {
        let binding = copy_binding(binding)?;
        copied.push(binding)?;
    }
    Ok(copied)
}
