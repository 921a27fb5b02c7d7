use crate::parts::parts_of;
use crate::term::{operators_by, read_equation};
use larch_base::{Memory, Name, Sequence};
use larch_certificate::Line;
use larch_certificate_reader::{FormRefusal, read_either};
use larch_term::{Operator, Operators, Sort, Sorts, Statement};
use std::alloc::Global;

/// The operators of a text that has one a line.
pub fn read_operators(alloc: Global, text: &[u8]) -> Result<Option<Operators>, Memory> {
    let mut operators = Sequence::new(alloc);
    for line in text.split(|byte| *byte == b'\n') {
        if line.is_empty() {
            continue;
        }
        let Some(operator) = read_operator(alloc, line)? else {
            return Ok(None);
        };
        operators.push(operator)?;
    }
    Ok(Some(operators))
}

fn read_operator(alloc: Global, line: &[u8]) -> Result<Option<Operator>, Memory> {
    let words = parts_of(alloc, line, b'\t')?;
    let [name, domain @ .., range] = words.as_slice() else {
        return Ok(None);
    };
    let operator = operator_of(alloc, name, domain, range)?;
    Ok(Some(operator))
}

fn operator_of(
    alloc: Global,
    name: &[u8],
    domain: &[&[u8]],
    range: &[u8],
) -> Result<Operator, Memory> {
    let name = Name::new(alloc, name)?;
    let range = Name::new(alloc, range)?;
    let domain = read_sorts(alloc, domain)?;
    Operator::new(alloc, name, domain, range)
}

fn read_sorts(alloc: Global, names: &[&[u8]]) -> Result<Sorts, Memory> {
    let mut sorts = Sequence::new(alloc);
    for name in names {
        let sort = Name::new(alloc, name)?;
        sorts.push(sort)?;
    }
    Ok(sorts)
}

/// The statements that lines of a certificate write.
pub fn read_statements(
    alloc: Global,
    operators: &Operators,
    text: &[u8],
) -> Result<Option<Vec<Statement>>, Memory> {
    match read_either(alloc, text) {
        Ok(read) => statements_of(alloc, operators.as_slice(), read.lines.as_slice()),
        Err(FormRefusal::Form(_)) => Ok(None),
        Err(FormRefusal::Memory) => Err(Memory),
    }
}

fn statements_of(
    alloc: Global,
    operators: &[Operator],
    lines: &[Line],
) -> Result<Option<Vec<Statement>>, Memory> {
    let mut statements = Vec::new(alloc);
    for line in lines {
        let Some(statement) = read_statement(alloc, operators, line)? else {
            return Ok(None);
        };
        statements.push(statement)?;
    }
    Ok(Some(statements))
}

fn read_statement(
    alloc: Global,
    operators: &[Operator],
    line: &Line,
) -> Result<Option<Statement>, Memory> {
    match line {
        Line::BoxLine(_, equations) => match equations.as_slice() {
            [equation] => read_equation(alloc, operators, equation),
            _ => Ok(None),
        },
        Line::Generated(_, sort, numbers) => {
            read_clause(alloc, operators, true, sort, numbers.as_slice())
        }
        Line::Partitioned(_, sort, numbers) => {
            read_clause(alloc, operators, false, sort, numbers.as_slice())
        }
        _ => Ok(None),
    }
}

// The clause that operators with these numbers generate a sort, or else partition it.
fn read_clause(
    alloc: Global,
    operators: &[Operator],
    generated: bool,
    sort: &Sort,
    numbers: &[u64],
) -> Result<Option<Statement>, Memory> {
    let sort = sort.copy()?;
    let Some(operators) = operators_by(alloc, operators, numbers)? else {
        return Ok(None);
    };
    if generated {
        Ok(Some(Statement::Generated(sort, operators)))
    } else {
        Ok(Some(Statement::Partitioned(sort, operators)))
    }
}
