use crate::making::{deep, verdict_of, verdict_on};
use larch_base::{Bytes, Memory};
use larch_certificate::{Line, Symbol};
use larch_verify::Verdict;
use std::alloc::Global;
use std::test::Fail;

const SHOWN: &[u8] = b"#3(#1,x:N)==x:N";

// The lines of the certificate that `docs/CERTIFICATES.md` explains.
const WORKED: [&str; 12] = [
    "axiom 1",
    "axiom 2",
    "axiom 3",
    "box - | -",
    "inst 2 x:N=#1",
    "done",
    "box N | #3(#1,@7.1)==@7.1",
    "inst 3 x:N=#1;y:N=@7.1",
    "hyp 7 1",
    "repl 8 1 9",
    "done",
    "induct 1 x:N #3(#1,x:N)==x:N 4,7",
];

// Lines that stand in the place of others or behind the last, and where the certificate is refused then: another place,
// boxes in another order, a box that is open, a predicate, a hypothesis of a box that is closed.
const CHANGED: [(usize, &str, u64); 5] = [
    (10, "repl 8 1.1 9", 10),
    (12, "induct 1 x:N #3(#1,x:N)==x:N 7,4", 12),
    (11, "refl #1", 12),
    (4, "box N>Bool | -", 12),
    (13, "hyp 7 1", 13),
];

fn put_line(alloc: Global, text: &mut Bytes, number: usize, line: &str) -> Result<(), Memory> {
    let line = format!(in alloc; "{number} {line}\n")?;
    text.append(line.as_bytes())
}

// The certificate's text with another line.
fn with_line(alloc: Global, number: usize, line: &str) -> Result<Bytes, Memory> {
    let mut text = Bytes::new(alloc);
    text.append(b"certificate 1\n")?;
    for (index, worked) in WORKED.iter().enumerate() {
        let here = index.saturating_add(1);
        put_line(
            alloc,
            &mut text,
            here,
            if here == number { line } else { worked },
        )?;
    }
    if number > WORKED.len() {
        put_line(alloc, &mut text, number, line)?;
    }
    Ok(text)
}

// The verdict on it.
fn verdict_with(alloc: Global, number: usize, line: &str) -> Result<Option<Verdict>, Fail> {
    let text = with_line(alloc, number, line)?;
    verdict_of(alloc, SHOWN, text.bytes())
}

#[test]
fn accepts_the_worked_certificate(rt: HostRuntime) -> Result<(), Fail> {
    let verdict = verdict_with(rt.alloc(), 1, "axiom 1")?;
    assert_eq!(rt; verdict, Some(Verdict::Accepted));
    Ok(())
}

#[test]
fn refuses_changed_lines(rt: HostRuntime) -> Result<(), Fail> {
    for (number, line, refused) in &CHANGED {
        let verdict = verdict_with(rt.alloc(), *number, line)?;
        assert_eq!(rt; verdict, Some(Verdict::Refused(*refused)), "{line}");
    }
    Ok(())
}

#[test]
fn goes_down_terms_by_loops(rt: HostRuntime) -> Result<(), Memory> {
    let term = deep(rt.alloc(), Symbol::Own(1), 100_000)?;
    let verdict = verdict_on(rt.alloc(), SHOWN, &[Line::Refl(term)])?;
    assert_eq!(rt; verdict, Some(Verdict::Refused(2)));
    Ok(())
}
