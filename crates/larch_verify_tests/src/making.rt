use larch_base::{Bytes, Memory, Sequence};
use larch_certificate::{Coded, CodedTerms, Line, Symbol};
use larch_certificate_reader::read_certificate;
use larch_term::{Operators, Statement, Theory};
use larch_theory_text::{read_operators, read_statements};
use larch_verify::{Verdict, verify};
use std::alloc::Global;
use std::test::Fail;

// The operators 0, s and plus of the numbers.
const OPERATORS: &[u8] = b"0\tN\ns\tN\tN\n__ + __\tN\tN\tN\n";

const STATEMENTS: &[u8] = b"certificate 1\n\
    1 generated 0 N #1,#2\n\
    2 box - | #3(x:N,#1)==x:N\n\
    3 box - | #3(x:N,#2(y:N))==#2(#3(x:N,y:N))\n\
    4 box - | ";

// What is stated of the numbers, and an equation behind that.
fn statements(
    alloc: Global,
    operators: &Operators,
    shown: &[u8],
) -> Result<Option<Vec<Statement>>, Memory> {
    let mut text = Bytes::new(alloc);
    text.append(STATEMENTS)?;
    text.append(shown)?;
    text.append(b"\n")?;
    read_statements(alloc, operators, text.bytes())
}

// The theory of the numbers, and an equation; none where a text is wrong.
fn problem(alloc: Global, shown: &[u8]) -> Result<Option<(Theory, Statement)>, Memory> {
    let Some(operators) = read_operators(alloc, OPERATORS)? else {
        return Ok(None);
    };
    let Some(mut statements) = statements(alloc, &operators, shown)? else {
        return Ok(None);
    };
    let Some(statement) = statements.pop() else {
        return Ok(None);
    };
    let statements = Sequence::from_vec(statements);
    Ok(Some((
        Theory {
            operators,
            statements,
        },
        statement,
    )))
}

// The verdict on lines for an equation over the numbers.
pub(crate) fn verdict_on(
    alloc: Global,
    shown: &[u8],
    lines: &[Line],
) -> Result<Option<Verdict>, Memory> {
    let Some((theory, statement)) = problem(alloc, shown)? else {
        return Ok(None);
    };
    let verdict = verify(alloc, &theory, &statement, lines)?;
    Ok(Some(verdict))
}

// The verdict on a certificate's text.
pub(crate) fn verdict_of(
    alloc: Global,
    shown: &[u8],
    text: &[u8],
) -> Result<Option<Verdict>, Fail> {
    let lines = read_certificate(alloc, text)?;
    let verdict = verdict_on(alloc, shown, lines.as_slice())?;
    Ok(verdict)
}

// s(s(..s(c)..)), so deep.
pub(crate) fn deep(alloc: Global, constant: Symbol, depth: u64) -> Result<Coded, Memory> {
    let mut term = Coded::app(constant, CodedTerms::none());
    for _ in 0..depth {
        let mut arguments = Vec::with_capacity(alloc, 1)?;
        arguments.push(term)?;
        let arguments = CodedTerms::from_vec(arguments)?;
        term = Coded::app(Symbol::Own(2), arguments);
    }
    Ok(term)
}
