use crate::calls::{session, status_over};
use larch_io::{MemorySink, MemorySource};
use larch_main::Status;
use std::test::Fail;

const ONE: &[u8] = b"put One.lsl 36\nOne: trait\n  introduces\n    c: -> S\nreport\nquit\n";

const ONE_REPORT: &[u8] =
    b"trait One\ntotal 1 traits, 0 errors, 0 proved, 0 suspended, 0 refused\nend\n";

const CUT: &[u8] = b"report\nput One.lsl 36\nOne: trait\n";

const CUT_OUTPUT: &[u8] =
    b"total 0 traits, 0 errors, 0 proved, 0 suspended, 0 refused\nend\nmalformed at byte 7\n";

#[test]
fn answers_byte_by_byte(rt: HostRuntime) -> Result<(), Fail> {
    let (status, sink) = session(&rt, ONE, &[], &[])?;
    assert_eq!(rt; status, Status::Good);
    assert_eq!(rt; sink.bytes(), ONE_REPORT);
    Ok(())
}

#[test]
fn refuses_a_cut_put(rt: HostRuntime) -> Result<(), Fail> {
    let (status, sink) = session(&rt, CUT, &[], &[])?;
    assert_eq!(rt; status, Status::Malformed);
    assert_eq!(rt; sink.bytes(), CUT_OUTPUT);
    Ok(())
}

// The report is whole with byte 58 of the input, and the session ends with byte 63.
#[test]
fn answers_whole_commands_before_a_read_fault(rt: HostRuntime) -> Result<(), Fail> {
    for call in 1..64 {
        let (status, sink) = session(&rt, ONE, &[call], &[])?;
        let expected: &[u8] = if call <= 58 { b"" } else { ONE_REPORT };
        assert_eq!(rt; status, Status::ReadFault, "at read {call}");
        assert_eq!(rt; sink.bytes(), expected, "at read {call}");
    }
    Ok(())
}

#[test]
fn answers_before_a_read_fault_in_a_put(rt: HostRuntime) -> Result<(), Fail> {
    for call in 1..34 {
        let (status, sink) = session(&rt, CUT, &[call], &[])?;
        let expected: &[u8] = if call <= 7 { b"" } else { &CUT_OUTPUT[..63] };
        assert_eq!(rt; status, Status::ReadFault, "at read {call}");
        assert_eq!(rt; sink.bytes(), expected, "at read {call}");
    }
    Ok(())
}

#[test]
fn keeps_a_front_at_a_write_fault(rt: HostRuntime) -> Result<(), Fail> {
    for call in 1..84u8 {
        let (status, sink) = session(&rt, CUT, &[], &[u64::from(call)])?;
        let kept = usize::from(call) - 1;
        assert_eq!(rt; status, Status::WriteFault, "at write {call}");
        assert_eq!(rt; sink.bytes(), &CUT_OUTPUT[..kept], "at write {call}");
    }
    Ok(())
}

#[test]
fn takes_no_other_words(rt: HostRuntime) -> Result<(), Fail> {
    let mut source = MemorySource::new(rt.alloc(), ONE, &[1], 1)?;
    let mut sink = MemorySink::new(rt.alloc(), &[], 7)?;
    let status = status_over(&rt, &["frobnicate"], &mut source, &mut sink)?;
    assert_eq!(rt; status, Status::Words);
    assert!(rt; sink.bytes().starts_with(b"usage: larch COMMAND"));
    Ok(())
}
