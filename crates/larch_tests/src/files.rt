ghost use Rattle.std.specs.Prelude.{◌<◌};

use crate::calls::{REPORT, SCRIPT, TRUTHS, put, status_on, verify};
use larch_base::Memory;
use larch_io::{MemoryFolder, MemorySink};
use larch_main::Status;
use std::alloc::Global;
use std::test::Fail;

const ONE: &[u8] = b"One: trait\n  introduces\n    c: -> S\n  implies\n    c == c\n";

const WRONG: &[u8] = b"Two: trait\n  introduces\n    c -> S\n";

const BOTH: &[u8] = b"trait One\ntrait Two error 3:7 SYNTAX\n\
    total 2 traits, 1 errors, 0 proved, 0 suspended, 0 refused\nend\n";

const REFLEXIVE: &[u8] = b"certificate 1\n1 refl #1\n";

// The same with a line that its end doesn't need.
const IDLE: &[u8] = b"certificate 1\n1 row 1\n2 refl #1\n";

const TRIMMED: &[u8] = b"certificate 2\nrefl term=#1\n";

const MODEL: &[u8] = b"model\nsort S 2\nop 1 1\n";

const HOLDS: &[u8] = b"model\nimply.1 holds\nend\n";

const LISTED: &[u8] = b"trait One\nop c: -> S\nimply.1 c == c\ntrait Two error 3:7 SYNTAX\nend\n";

// A report on the third trait without its script.
const WITHOUT_SCRIPT: &[u8] = b"trait Truths\nimply.1 suspended goals 1: holds(b)\n\
    imply.2 suspended goals 1: b\n\
    total 1 traits, 0 errors, 0 proved, 2 suspended, 0 refused\nend\n";

const ONE_ALONE: &[u8] =
    b"trait One\ntotal 1 traits, 0 errors, 0 proved, 0 suspended, 0 refused\nend\n";

// A folder with two traits, of which the second is wrong, a file that is no script, two certificates of what the first
// one implies, a model of it, and a third trait with its script.
fn folder_of(alloc: Global, failing: &[u64]) -> Result<MemoryFolder, Memory> {
    let mut folder = MemoryFolder::new(alloc, failing)?;
    put_two(alloc, &mut folder)?;
    put_third(alloc, &mut folder)?;
    Ok(folder)
}

fn put_two(alloc: Global, folder: &mut MemoryFolder) -> Result<(), Memory> {
    put(alloc, folder, b"One.lsl", ONE)?;
    put(alloc, folder, b"Two.lsl", WRONG)?;
    put(alloc, folder, b"One.lp", b"not looked at")?;
    put(alloc, folder, b"One.cert", REFLEXIVE)?;
    put(alloc, folder, b"Idle.cert", IDLE)?;
    put(alloc, folder, b"One.mod", MODEL)
}

fn put_third(alloc: Global, folder: &mut MemoryFolder) -> Result<(), Memory> {
    put(alloc, folder, b"Truths.lsl", TRUTHS)?;
    put(alloc, folder, b"Truths.lp", SCRIPT)
}

// What a call with these words writes, so many bytes at a time, where the listed looks at the folder and writes fail.
fn called_with(
    rt: &HostRuntime,
    texts: &[&str],
    looks: &[u64],
    writes: &[u64],
    most: usize,
) -> Result<(Status, MemorySink), Memory>
    requires { 0 < most }
{
    let mut folder = folder_of(rt.alloc(), looks)?;
    let mut sink = MemorySink::new(rt.alloc(), writes, most)?;
    let status = status_on(rt, texts, &mut folder, &mut sink)?;
    Ok((status, sink))
}

// The same, where no write fails.
fn call_status(
    rt: &HostRuntime,
    texts: &[&str],
    looks: &[u64],
) -> Result<(Status, MemorySink), Memory> {
    called_with(rt, texts, looks, &[], 1)
}

// The first look below a number at which a fault isn't told, or something is written all the same.
fn first_wrong_look(rt: &HostRuntime, texts: &[&str], behind: u64) -> Result<Option<u64>, Memory> {
    for look in 1..behind {
        let (status, sink) = call_status(rt, texts, &[look])?;
        if status != Status::ReadFault || !sink.bytes().is_empty() {
            return Ok(Some(look));
        }
    }
    Ok(None)
}

// How many bytes of the whole output stand where a write fails without being told, or something else than a front of
// it is written.
fn first_wrong_write(
    rt: &HostRuntime,
    texts: &[&str],
    whole: &[u8],
) -> Result<Option<usize>, Memory> {
    for kept in 0..whole.len() {
        let (status, sink) = called_with(rt, texts, &[], &[kept as u64 + 1], 1)?;
        if status != Status::WriteFault || sink.bytes() != &whole[..kept] {
            return Ok(Some(kept));
        }
    }
    Ok(None)
}

// The first write of 16 bytes below a number that fails without being told, or behind something else than a front of
// the whole output.
fn first_wrong_piece(
    rt: &HostRuntime,
    texts: &[&str],
    whole: &[u8],
    behind: u64,
) -> Result<Option<u64>, Memory> {
    for write in 1..behind {
        let (status, sink) = called_with(rt, texts, &[], &[write], 16)?;
        if status != Status::WriteFault || !whole.starts_with(sink.bytes()) {
            return Ok(Some(write));
        }
    }
    Ok(None)
}

#[test]
fn checks_files(rt: HostRuntime) -> Result<(), Fail> {
    let (status, sink) = call_status(&rt, &["check", "Two.lsl", "One.lp", "One.lsl"], &[])?;
    assert_eq!(rt; status, Status::Remains);
    assert_eq!(rt; sink.bytes(), BOTH);
    Ok(())
}

// A name that comes again isn't looked at again: the third look would fail.
#[test]
fn looks_once(rt: HostRuntime) -> Result<(), Fail> {
    let (status, sink) = call_status(&rt, &["check", "One.lsl", "One.lp", "One.lsl"], &[3])?;
    assert_eq!(rt; status, Status::Good);
    assert_eq!(rt; sink.bytes(), ONE_ALONE);
    Ok(())
}

#[test]
fn tells_what_is_absent(rt: HostRuntime) -> Result<(), Fail> {
    let (status, sink) = call_status(&rt, &["check", "One.lsl", "Nope.lsl", "No.lsl"], &[3])?;
    assert_eq!(rt; status, Status::NoFile);
    assert_eq!(rt; sink.bytes(), b"no file Nope.lsl\n".as_slice());
    Ok(())
}

#[test]
fn writes_nothing_after_a_fault(rt: HostRuntime) -> Result<(), Fail> {
    let wrong = first_wrong_look(&rt, &["check", "Two.lsl", "One.lp", "One.lsl"], 4)?;
    assert_eq!(rt; wrong, None);
    let wrong = first_wrong_look(&rt, &["obligations", "Two.lsl", "One.lsl"], 3)?;
    assert_eq!(rt; wrong, None);
    let wrong = first_wrong_look(&rt, &["verify", "One", "imply.1", "One.cert", "One.lsl"], 3)?;
    assert_eq!(rt; wrong, None);
    let wrong = first_wrong_look(&rt, &["model", "One", "One.mod", "One.lsl"], 3)?;
    assert_eq!(rt; wrong, None);
    Ok(())
}

#[test]
fn trims_nothing_after_a_fault(rt: HostRuntime) -> Result<(), Fail> {
    let wrong = first_wrong_look(&rt, &["trim", "One", "imply.1", "Idle.cert", "One.lsl"], 3)?;
    assert_eq!(rt; wrong, None);
    Ok(())
}

#[test]
fn keeps_a_front_where_a_write_fails(rt: HostRuntime) -> Result<(), Fail> {
    let wrong = first_wrong_write(&rt, &["check", "Two.lsl", "One.lsl"], BOTH)?;
    assert_eq!(rt; wrong, None);
    let wrong = first_wrong_write(&rt, &["obligations", "Two.lsl", "One.lsl"], LISTED)?;
    assert_eq!(rt; wrong, None);
    let words = ["verify", "One", "imply.1", "One.cert", "One.lsl"];
    let wrong = first_wrong_write(&rt, &words, b"accepted\n")?;
    assert_eq!(rt; wrong, None);
    Ok(())
}

// Where a write fails, a front of the answer was written.
#[test]
fn tries_a_model(rt: HostRuntime) -> Result<(), Fail> {
    let words = ["model", "One", "One.mod", "One.lsl"];
    let (status, sink) = call_status(&rt, &words, &[])?;
    assert_eq!(rt; status, Status::Good);
    assert_eq!(rt; sink.bytes(), HOLDS);
    let wrong = first_wrong_write(&rt, &words, HOLDS)?;
    assert_eq!(rt; wrong, None);
    Ok(())
}

// That there is no such trait comes before what the text is.
#[test]
fn tries_no_wrong_trait(rt: HostRuntime) -> Result<(), Fail> {
    let (status, sink) = call_status(&rt, &["model", "Two", "One.mod", "Two.lsl"], &[])?;
    assert_eq!(rt; status, Status::Remains);
    assert_eq!(rt; sink.bytes(), b"no trait\n".as_slice());
    Ok(())
}

#[test]
fn verifies(rt: HostRuntime) -> Result<(), Fail> {
    let words = ["verify", "One", "imply.1", "One.cert", "One.lsl"];
    let (status, sink) = call_status(&rt, &words, &[])?;
    assert_eq!(rt; status, Status::Good);
    assert_eq!(rt; sink.bytes(), b"accepted\n".as_slice());
    Ok(())
}

// Where a write fails, a front of what is left was written.
#[test]
fn trims(rt: HostRuntime) -> Result<(), Fail> {
    let words = ["trim", "One", "imply.1", "Idle.cert", "One.lsl"];
    let (status, sink) = call_status(&rt, &words, &[])?;
    assert_eq!(rt; status, Status::Good);
    assert_eq!(rt; sink.bytes(), TRIMMED);
    let wrong = first_wrong_write(&rt, &words, TRIMMED)?;
    assert_eq!(rt; wrong, None);
    Ok(())
}

#[test]
fn lists_obligations(rt: HostRuntime) -> Result<(), Fail> {
    let (status, sink) = call_status(&rt, &["obligations", "Two.lsl", "One.lsl"], &[])?;
    assert_eq!(rt; status, Status::Remains);
    assert_eq!(rt; sink.bytes(), LISTED);
    Ok(())
}

#[test]
fn replays_by_a_script(rt: HostRuntime) -> Result<(), Fail> {
    let (status, sink) = call_status(&rt, &["replay", "Truths.lp", "Truths.lsl"], &[])?;
    assert_eq!(rt; status, Status::Remains);
    assert_eq!(rt; sink.bytes(), REPORT);
    let (status, sink) = call_status(&rt, &["replay", "Truths.lsl"], &[])?;
    assert_eq!(rt; status, Status::Remains);
    assert_eq!(rt; sink.bytes(), WITHOUT_SCRIPT);
    Ok(())
}

// Each fault of the folder is told, with nothing written; where a write fails, a front of the report was written.
#[test]
fn replays_over_faults(rt: HostRuntime) -> Result<(), Fail> {
    let words = ["replay", "Truths.lsl", "Truths.lp"];
    let wrong = first_wrong_look(&rt, &words, 3)?;
    assert_eq!(rt; wrong, None);
    let wrong = first_wrong_piece(&rt, &words, REPORT, 9)?;
    assert_eq!(rt; wrong, None);
    Ok(())
}

// What is derived is accepted in another call; and not for the other duty.
#[test]
fn derives_what_is_verified(rt: HostRuntime) -> Result<(), Fail> {
    let words = ["derive", "Truths", "imply.1", "Truths.lsl", "Truths.lp"];
    let (status, sink) = call_status(&rt, &words, &[])?;
    assert_eq!(rt; status, Status::Good);
    let (status, said) = verify(&rt, "imply.1", sink.bytes())?;
    assert_eq!(rt; status, Status::Good);
    assert_eq!(rt; said.bytes(), b"accepted\n".as_slice());
    let (status, _) = verify(&rt, "imply.2", sink.bytes())?;
    assert_eq!(rt; status, Status::Remains);
    Ok(())
}

// A duty that is left open, one that isn't there, and a trait that isn't.
#[test]
fn derives_nothing_else(rt: HostRuntime) -> Result<(), Fail> {
    for (stem, label) in [
        ("Truths", "imply.2"),
        ("Truths", "imply.3"),
        ("Other", "imply.1"),
    ] {
        let words = ["derive", stem, label, "Truths.lsl", "Truths.lp"];
        let (status, sink) = call_status(&rt, &words, &[])?;
        assert_eq!(rt; status, Status::Remains, "{stem} {label}");
        assert_eq!(rt; sink.bytes(), b"none\n".as_slice(), "{stem} {label}");
    }
    Ok(())
}

#[test]
fn derives_over_faults(rt: HostRuntime) -> Result<(), Fail> {
    let words = ["derive", "One", "imply.1", "One.lsl", "Truths.lp"];
    let wrong = first_wrong_look(&rt, &words, 3)?;
    assert_eq!(rt; wrong, None);
    let (_, whole) = call_status(&rt, &words, &[])?;
    let wrong = first_wrong_piece(&rt, &words, whole.bytes(), 9)?;
    assert_eq!(rt; wrong, None);
    Ok(())
}

// The certificate is looked for before the files, and a fault comes before its absence.
#[test]
fn looks_for_the_certificate_first(rt: HostRuntime) -> Result<(), Fail> {
    let words = ["verify", "One", "imply.1", "No.cert", "Nope.lsl"];
    let (status, sink) = call_status(&rt, &words, &[2])?;
    assert_eq!(rt; status, Status::NoFile);
    assert_eq!(rt; sink.bytes(), b"no file No.cert\n".as_slice());
    let (status, _) = call_status(&rt, &words, &[1])?;
    assert_eq!(rt; status, Status::ReadFault);
    Ok(())
}
