//! The program `larch`.
#![tactic(auto)]

ghost use Rattle.std.specs.Prelude.{◌≡◌, ◌<◌};

use larch_base::{Memory, Steps};
use larch_io::{StandardInput, StandardOutput, WorkingFolder};
use larch_main::{Status, run};
use std::alloc::Global;
use std::env;
use std::io::ErrorKind;
use std::marker::Brand;
use std::process::ExitCode;
use std::sync::ledger::{Blank, Ledger};

// The words behind the program's name. Where they are no texts there are none, and so no command.
fn words(rt: &HostRuntime, alloc: Global) -> Result<Vec<String>, Memory> {
    let mut words = Vec::new(alloc);
    match env::args(rt) {
        Ok(all) => {
            for word in all.skip(1) {
                words.push(word)?;
            }
            Ok(words)
        }
        Err(error) => {
            if error.kind() == ErrorKind::OutOfMemory {
                Err(Memory)
            } else {
                Ok(words)
            }
        }
    }
}

// Runs the words' command over the working folder and the standard streams, its steps being counted in a ledger of
// their own.
fn start<L: Ledger>(rt: &HostRuntime, blank: Blank, words: &[String]) -> Status
    requires name { blank.name ≡ L.name }
    requires parts { blank.parts ≡ L.parts }
    requires some { 0 < L.parts }
{
    let alloc = rt.alloc();
    let mut folder = WorkingFolder::new(rt);
    let mut source = StandardInput::new(rt);
    let mut sink = StandardOutput::new(rt);
    let mut steps: Steps<L> = Steps::start(blank, rt);
    run(
        alloc,
        words,
        &mut folder,
        &mut source,
        &mut sink,
        &mut steps,
    )
}

// Where memory runs out while the words are copied, the status says so.
fn main(rt: HostRuntime) -> ExitCode {
    let status = match words(&rt, rt.alloc()) {
        Ok(words) => start::<Brand>(&rt, Blank::new(1), &words),
        Err(Memory) => Status::Memory,
    };
    ExitCode::from(status.number())
}
