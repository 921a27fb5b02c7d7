ghost use Rattle.std.specs.Prelude.{◌≡◌, ◌<◌};

use larch_base::{Bytes, Memory, Name, Steps};
use larch_io::{MemoryFolder, MemorySink, MemorySource};
use larch_main::{Status, run};
use std::alloc::Global;
use std::marker::Brand;
use std::sync::ledger::{Blank, Ledger};

// A trait with two duties, of which its script proves the first.
pub(crate) const TRUTHS: &[u8] = b"Truths: trait\n  introduces\n    holds: Bool -> Bool\n\
    \x20 asserts\n    holds(true);\n    holds(false)\n\
    \x20 implies\n    \\forall b: Bool\n      holds(b);\n      b\n";

pub(crate) const SCRIPT: &[u8] = b"duty imply.1\n  resume by cases b\nqed\n";

// A report on them.
pub(crate) const REPORT: &[u8] = b"trait Truths\nimply.1 proved\nimply.2 suspended goals 1: b\n\
    total 1 traits, 0 errors, 1 proved, 1 suspended, 0 refused\nend\n";

// The status of a call with these words over this folder and these streams, its steps being counted in a ledger of
// their own.
fn status_counted<L: Ledger>(
    rt: &HostRuntime,
    blank: Blank,
    words: &[String],
    folder: &mut MemoryFolder,
    source: &mut MemorySource,
    sink: &mut MemorySink,
) -> Status
    requires name { blank.name ≡ L.name }
    requires parts { blank.parts ≡ L.parts }
    requires some { 0 < L.parts }
{
    let mut steps: Steps<L> = Steps::start(blank, rt);
    run(rt.alloc(), words, folder, source, sink, &mut steps)
}

// The status of a call with these words over this folder and these streams.
pub(crate) fn status_of(
    rt: &HostRuntime,
    words: &[String],
    folder: &mut MemoryFolder,
    source: &mut MemorySource,
    sink: &mut MemorySink,
) -> Status {
    status_counted::<Brand>(rt, Blank::new(1), words, folder, source, sink)
}

// The same, where the input is empty.
pub(crate) fn status_on(
    rt: &HostRuntime,
    texts: &[&str],
    folder: &mut MemoryFolder,
    sink: &mut MemorySink,
) -> Result<Status, Memory> {
    let words = words_of(rt.alloc(), texts)?;
    let mut source = MemorySource::new(rt.alloc(), b"", &[], 1)?;
    Ok(status_of(rt, &words, folder, &mut source, sink))
}

// What a session on this input writes, one byte a call on both sides, where the listed calls fail.
pub(crate) fn session(
    rt: &HostRuntime,
    input: &[u8],
    reads: &[u64],
    writes: &[u64],
) -> Result<(Status, MemorySink), Memory> {
    let mut source = MemorySource::new(rt.alloc(), input, reads, 1)?;
    let mut sink = MemorySink::new(rt.alloc(), writes, 1)?;
    let status = status_over(rt, &["session"], &mut source, &mut sink)?;
    Ok((status, sink))
}

// The status of a call with these words over these streams and an empty folder.
pub(crate) fn status_over(
    rt: &HostRuntime,
    texts: &[&str],
    source: &mut MemorySource,
    sink: &mut MemorySink,
) -> Result<Status, Memory> {
    let words = words_of(rt.alloc(), texts)?;
    let mut folder = MemoryFolder::new(rt.alloc(), &[])?;
    Ok(status_of(rt, &words, &mut folder, source, sink))
}

// What `verify` writes of a certificate of the duty of that trait with a label.
pub(crate) fn verify(
    rt: &HostRuntime,
    label: &str,
    certificate: &[u8],
) -> Result<(Status, MemorySink), Memory> {
    let mut folder = MemoryFolder::new(rt.alloc(), &[])?;
    put(rt.alloc(), &mut folder, b"Truths.lsl", TRUTHS)?;
    put(rt.alloc(), &mut folder, b"Truths.cert", certificate)?;
    verdict(rt, label, &mut folder)
}

fn verdict(
    rt: &HostRuntime,
    label: &str,
    folder: &mut MemoryFolder,
) -> Result<(Status, MemorySink), Memory> {
    let words = ["verify", "Truths", label, "Truths.cert", "Truths.lsl"];
    let mut sink = MemorySink::new(rt.alloc(), &[], 1)?;
    let status = status_on(rt, &words, folder, &mut sink)?;
    Ok((status, sink))
}

// Puts a file into a folder.
pub(crate) fn put(
    alloc: Global,
    folder: &mut MemoryFolder,
    name: &[u8],
    text: &[u8],
) -> Result<(), Memory> {
    let mut bytes = Bytes::new(alloc);
    bytes.append(text)?;
    folder.insert(Name::new(alloc, name)?, bytes)
}

fn words_of(alloc: Global, texts: &[&str]) -> Result<Vec<String>, Memory> {
    let mut words = Vec::new(alloc);
    for text in texts {
        words.push(String::from_str(alloc, text)?)?;
    }
    Ok(words)
}
