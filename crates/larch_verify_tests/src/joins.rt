use crate::making::{deep, verdict_on};
use larch_base::{Memory, Sequence};
use larch_certificate::{Certificate, Coded, Line, Symbol};
use larch_certificate_reader::read_certificate;
use larch_derive_join::{Part, Parts, inline};
use larch_verify::Verdict;
use std::alloc::Global;
use std::test::Fail;

// Certificates over the numbers: of 0 + x == x, of s(x) + y == s(x + y), and of x + y == y + x by the other two, which
// it cites as the fourth and the fifth statement.
const PARTS: [&[u8]; 3] = [
    b"certificate 1\n\
    1 axiom 1\n\
    2 axiom 2\n\
    3 axiom 3\n\
    4 box - | -\n\
    5 inst 2 x:N=#1\n\
    6 done\n\
    7 box N | #3(#1,@7.1)==@7.1\n\
    8 inst 3 x:N=#1;y:N=@7.1\n\
    9 hyp 7 1\n\
    10 repl 8 1 9\n\
    11 done\n\
    12 induct 1 x:N #3(#1,x:N)==x:N 4,7\n",
    b"certificate 1\n\
    1 axiom 1\n\
    2 axiom 2\n\
    3 axiom 3\n\
    4 box - | -\n\
    5 inst 2 x:N=#2(x:N)\n\
    6 sym 2\n\
    7 repl 5 1 6\n\
    8 done\n\
    9 box N | #3(#2(x:N),@9.1)==#2(#3(x:N,@9.1))\n\
    10 inst 3 x:N=#2(x:N);y:N=@9.1\n\
    11 hyp 9 1\n\
    12 repl 10 1 11\n\
    13 inst 3 y:N=@9.1\n\
    14 sym 13\n\
    15 repl 12 1 14\n\
    16 done\n\
    17 induct 1 y:N #3(#2(x:N),y:N)==#2(#3(x:N,y:N)) 4,9\n",
    b"certificate 1\n\
    1 axiom 1\n\
    2 axiom 2\n\
    3 axiom 3\n\
    4 axiom 4\n\
    5 axiom 5\n\
    6 box - | -\n\
    7 sym 4\n\
    8 repl 2 - 7\n\
    9 done\n\
    10 box N | #3(x:N,@10.1)==#3(@10.1,x:N)\n\
    11 inst 3 y:N=@10.1\n\
    12 hyp 10 1\n\
    13 repl 11 1 12\n\
    14 inst 5 x:N=@10.1;y:N=x:N\n\
    15 sym 14\n\
    16 repl 13 - 15\n\
    17 done\n\
    18 induct 1 y:N #3(x:N,y:N)==#3(y:N,x:N) 6,10\n",
];

// The parts with these texts, each over the three statements of the numbers.
fn parts(alloc: Global, texts: &[&[u8]]) -> Result<Parts, Fail> {
    let mut parts = Sequence::new(alloc);
    for text in texts {
        push_part(alloc, text, &mut parts)?;
    }
    Ok(parts)
}

fn push_part(alloc: Global, text: &[u8], parts: &mut Parts) -> Result<(), Fail> {
    let certificate = read_certificate(alloc, text)?;
    parts.push(Part {
        statements: 3,
        certificate,
    })?;
    Ok(())
}

// What the parts are joined to.
fn join(alloc: Global, texts: &[&[u8]]) -> Result<Certificate, Fail> {
    let parts = parts(alloc, texts)?;
    Ok(inline(alloc, &parts)?)
}

#[test]
fn accepts_the_worked_parts(rt: HostRuntime) -> Result<(), Fail> {
    let joined = join(rt.alloc(), &PARTS)?;
    let verdict = verdict_on(rt.alloc(), b"#3(x:N,y:N)==#3(y:N,x:N)", joined.as_slice())?;
    assert_eq!(rt; verdict, Some(Verdict::Accepted));
    Ok(())
}

// Alone the last part isn't accepted: it cites statements that the numbers haven't.
#[test]
fn refuses_the_last_part_alone(rt: HostRuntime) -> Result<(), Fail> {
    let last = join(rt.alloc(), &PARTS[2..])?;
    let verdict = verdict_on(rt.alloc(), b"#3(x:N,y:N)==#3(y:N,x:N)", last.as_slice())?;
    assert_eq!(rt; verdict, Some(Verdict::Refused(4)));
    Ok(())
}

// Two parts, each with a deep term that ends with a constant of a box.
fn deep_parts(alloc: Global) -> Result<Parts, Memory> {
    let mut parts = Sequence::new(alloc);
    for number in 1..3 {
        let term = deep(alloc, Symbol::Constant(number, 1), 100_000)?;
        push_term(alloc, term, &mut parts)?;
    }
    Ok(parts)
}

fn push_term(alloc: Global, term: Coded, parts: &mut Parts) -> Result<(), Memory> {
    let mut certificate = Sequence::new(alloc);
    certificate.push(Line::Refl(term))?;
    parts.push(Part {
        statements: 0,
        certificate,
    })
}

#[test]
fn moves_terms_by_loops(rt: HostRuntime) -> Result<(), Memory> {
    let parts = deep_parts(rt.alloc())?;
    let joined = inline(rt.alloc(), &parts)?;
    assert_eq!(rt; joined.as_slice().len(), 2);
    Ok(())
}
