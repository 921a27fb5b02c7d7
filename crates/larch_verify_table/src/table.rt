use larch_base::{Bytes, Memory, Sequence, let_go};
use larch_certificate::Line;
use larch_certificate_reader::{FormRefusal, read_either};
use larch_term::{Operators, Statement, Theory};
use larch_theory_text::{parts_of, read_operators, read_statements};
use larch_verify::{Verdict, verify};
use std::alloc::Global;

/// What is printed of the problems, between which there are bytes 0.
pub fn answers(alloc: Global, texts: &[u8]) -> Result<Bytes, Memory> {
    let mut answer = Bytes::new(alloc);
    for text in texts.split(|byte| *byte == 0) {
        put_answer(alloc, text, &mut answer)?;
        answer.append(b"\0")?;
    }
    Ok(answer)
}

fn put_answer(alloc: Global, text: &[u8], answer: &mut Bytes) -> Result<(), Memory> {
    let parts = parts_of(alloc, text, 1)?;
    let [operators, statements, certificate] = parts.as_slice() else {
        return answer.append(b"no problem");
    };
    let Some(operators) = read_operators(alloc, operators)? else {
        return answer.append(b"no problem");
    };
    put_verdict(alloc, operators, statements, certificate, answer)
}

// The last statement is the one that is to be shown.
fn put_verdict(
    alloc: Global,
    operators: Operators,
    statements: &[u8],
    certificate: &[u8],
    answer: &mut Bytes,
) -> Result<(), Memory> {
    match read_statements(alloc, &operators, statements) {
        Ok(Some(statements)) => put_claim(alloc, operators, statements, certificate, answer),
        Ok(None) => let_go(answer.append(b"no problem"), operators),
        Err(memory) => Err(let_go(memory, operators)),
    }
}

fn put_claim(
    alloc: Global,
    operators: Operators,
    statements: Vec<Statement>,
    certificate: &[u8],
    answer: &mut Bytes,
) -> Result<(), Memory> {
    let mut statements = statements;
    let Some(statement) = statements.pop() else {
        return answer.append(b"no problem");
    };
    let theory = Theory {
        operators,
        statements: Sequence::from_vec(statements),
    };
    put_checked(alloc, &theory, &statement, certificate, answer)
}

fn put_checked(
    alloc: Global,
    theory: &Theory,
    statement: &Statement,
    certificate: &[u8],
    answer: &mut Bytes,
) -> Result<(), Memory> {
    match read_either(alloc, certificate) {
        Ok(read) => put_verified(alloc, theory, statement, read.lines.as_slice(), answer),
        Err(FormRefusal::Form(line)) => put_number(alloc, b"malformed ", line, answer),
        Err(FormRefusal::Memory) => Err(Memory),
    }
}

fn put_verified(
    alloc: Global,
    theory: &Theory,
    statement: &Statement,
    lines: &[Line],
    answer: &mut Bytes,
) -> Result<(), Memory> {
    match verify(alloc, theory, statement, lines)? {
        Verdict::Accepted => answer.append(b"accepted"),
        Verdict::Refused(line) => put_number(alloc, b"refused ", line, answer),
    }
}

fn put_number(alloc: Global, word: &[u8], number: u64, answer: &mut Bytes) -> Result<(), Memory> {
    answer.append(word)?;
    let number = number.to_string(alloc)?;
    answer.append(number.as_bytes())
}
