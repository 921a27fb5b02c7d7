use crate::calls::{REPORT, SCRIPT, TRUTHS, session, status_over, verify};
use larch_base::{Bytes, Memory};
use larch_io::{MemorySink, MemorySource};
use larch_main::Status;
use std::alloc::Global;
use std::test::Fail;

// A report on the trait with its script, and then that there is no derivation.
const REPORT_THEN_NONE: &[u8] = b"trait Truths\nimply.1 proved\nimply.2 suspended goals 1: b\n\
    total 1 traits, 0 errors, 1 proved, 1 suspended, 0 refused\nend\nnone\n";

// A session that reports a proof without a script, and derives it.
const EQUAL: &[u8] =
    b"put One.lsl 57\nOne: trait\n  introduces\n    c: -> S\n  implies\n    c == c\n\
    report\nderive One imply.1\nquit\n";

// The input of a session that puts the trait and its script in, and has these lines behind them.
fn input_with(alloc: Global, lines: &[u8]) -> Result<Bytes, Memory> {
    let mut input = Bytes::new(alloc);
    input.append(b"put Truths.lsl 149\n")?;
    input.append(TRUTHS)?;
    input.append(b"put Truths.lp 37\n")?;
    input.append(SCRIPT)?;
    input.append(lines)?;
    Ok(input)
}

// What such a session writes.
fn answers(rt: &HostRuntime, lines: &[u8]) -> Result<(Status, MemorySink), Memory> {
    let input = input_with(rt.alloc(), lines)?;
    session(rt, input.bytes(), &[], &[])
}

// The text of a derivation, if that is what was written: a first line gives its length.
fn derivation_in(alloc: Global, written: &[u8]) -> Result<Option<&[u8]>, Memory> {
    let Some(end) = written.iter().position(|byte| *byte == b'\n') else {
        return Ok(None);
    };
    let text = &written[end + 1..];
    let length = text.len();
    let line = format!(in alloc; "derivation {length}\n")?;
    let fits = line.as_bytes() == &written[..end + 1];
    Ok(if fits { Some(text) } else { None })
}

#[test]
fn reports_by_a_script(rt: HostRuntime) -> Result<(), Fail> {
    let (status, sink) = answers(&rt, b"report\n")?;
    assert_eq!(rt; status, Status::Remains);
    assert_eq!(rt; sink.bytes(), REPORT);
    Ok(())
}

#[test]
fn derives_what_is_verified(rt: HostRuntime) -> Result<(), Fail> {
    let (status, sink) = answers(&rt, b"derive Truths imply.1\n")?;
    assert_eq!(rt; status, Status::Good);
    let Some(text) = derivation_in(rt.alloc(), sink.bytes())? else {
        return Err(Fail::new("no derivation"));
    };
    let (status, said) = verify(&rt, "imply.1", text)?;
    assert_eq!(rt; status, Status::Good);
    assert_eq!(rt; said.bytes(), b"accepted\n".as_slice());
    Ok(())
}

// A duty that is left open, those that aren't there, and a trait that isn't: the status is as without these lines.
#[test]
fn derives_nothing_else(rt: HostRuntime) -> Result<(), Fail> {
    let lines: &[&[u8]] = &[
        b"derive Truths imply.2\n",
        b"derive Truths imply.3\n",
        b"derive Truths convert.1\n",
        b"derive Other imply.1\n",
    ];
    for line in lines {
        let (status, sink) = answers(&rt, line)?;
        assert_eq!(rt; status, Status::Good);
        assert_eq!(rt; sink.bytes(), b"none\n".as_slice());
    }
    Ok(())
}

// What was proved before is no longer.
#[test]
fn derives_nothing_once_the_script_is_gone(rt: HostRuntime) -> Result<(), Fail> {
    let lines = b"report\ndrop Truths.lp\nderive Truths imply.1\n";
    let (status, sink) = answers(&rt, lines)?;
    assert_eq!(rt; status, Status::Remains);
    assert_eq!(rt; sink.bytes(), REPORT_THEN_NONE);
    Ok(())
}

// The first of these reads of a session which fails without being told, or behind something else than this.
fn first_wrong_read(
    rt: &HostRuntime,
    input: &[u8],
    reads: &[u64],
    expected: &[u8],
) -> Result<Option<u64>, Memory> {
    for read in reads {
        let (status, sink) = session(rt, input, &[*read], &[])?;
        if status != Status::ReadFault || sink.bytes() != expected {
            return Ok(Some(*read));
        }
    }
    Ok(None)
}

// The report is whole with byte 229 of the input, the derivation with byte 251, and the session ends with byte 256.
#[test]
fn answers_whole_commands_before_a_read_fault(rt: HostRuntime) -> Result<(), Fail> {
    let input = input_with(rt.alloc(), b"report\nderive Truths imply.1\nquit\n")?;
    let (_, whole) = session(&rt, input.bytes(), &[], &[])?;
    let wrong = first_wrong_read(&rt, input.bytes(), &[1, 19, 20, 222, 223, 229], b"")?;
    assert_eq!(rt; wrong, None);
    let wrong = first_wrong_read(&rt, input.bytes(), &[230, 251], REPORT)?;
    assert_eq!(rt; wrong, None);
    let wrong = first_wrong_read(&rt, input.bytes(), &[252, 256], whole.bytes())?;
    assert_eq!(rt; wrong, None);
    Ok(())
}

// What a session on this input writes, 16 bytes at a time, where one write fails.
fn session_cut(rt: &HostRuntime, input: &[u8], write: u64) -> Result<(Status, MemorySink), Memory> {
    let mut source = MemorySource::new(rt.alloc(), input, &[], 64)?;
    let mut sink = MemorySink::new(rt.alloc(), &[write], 16)?;
    let status = status_over(rt, &["session"], &mut source, &mut sink)?;
    Ok((status, sink))
}

// The first write below a number that fails without being told, or behind something else than a front of what the
// session writes.
fn first_wrong_write(rt: &HostRuntime, input: &[u8], behind: u64) -> Result<Option<u64>, Memory> {
    let (_, whole) = session(rt, input, &[], &[])?;
    for write in 1..behind {
        let (status, sink) = session_cut(rt, input, write)?;
        if status != Status::WriteFault || !whole.bytes().starts_with(sink.bytes()) {
            return Ok(Some(write));
        }
    }
    Ok(None)
}

#[test]
fn keeps_a_front_at_a_write_fault(rt: HostRuntime) -> Result<(), Fail> {
    let input = input_with(rt.alloc(), b"report\n")?;
    let wrong = first_wrong_write(&rt, input.bytes(), 9)?;
    assert_eq!(rt; wrong, None);
    let wrong = first_wrong_write(&rt, EQUAL, 15)?;
    assert_eq!(rt; wrong, None);
    Ok(())
}
