use crate::making::verdict_of;
use larch_verify::Verdict;
use std::test::Fail;

// A line by each rule that opens no box and cites none.
const LINES: &[u8] = b"certificate 1\n\
    1 axiom 0\n\
    2 row 40\n\
    3 row 24 N\n\
    4 equal 3\n\
    5 refl x:N\n\
    6 sym 5\n\
    7 repl 6 - 5\n\
    8 inst 7 -\n";

#[test]
fn answers_by_each_rule(rt: HostRuntime) -> Result<(), Fail> {
    let verdict = verdict_of(rt.alloc(), b"x:N==x:N", LINES)?;
    assert_eq!(rt; verdict, Some(Verdict::Accepted));
    Ok(())
}
