ghost use Rattle.std.specs.Prelude.{◌≡◌, ◌<◌, ◌≤◌, None, length, IfSome};

use crate::refusal::WriteRefusal;
use crate::sink::Sink;
use std::io::{ErrorKind, Write};
use std::marker::Model;
use std::rt::Stdout;

/// How often a write is tried that signals interrupt.
const MAX_TRIES: u32 = 1_000;

/// The standard output of the program. Contracts see it as the count of its faults.
#[derive(Drop)]
pub struct StandardOutput {
    output: Stdout,
    faults: u64,
}

impl Model for StandardOutput {
    ghost use Rattle.std.specs.Prelude.{ℕ};

    ghost Value = { ℕ };

    ghost view = { λ sink. sink.faults };
}

impl StandardOutput {
    /// The standard output, without a fault yet. The runtime is what `main` and tests are handed.
    pub fn new(rt: &HostRuntime) -> StandardOutput
        ensures { result ≡ 0 }
    {
        StandardOutput {
            output: rt.stdout(),
            faults: 0,
        }
    }
}

impl Sink for StandardOutput {
    ghost held = { λ _. None };

    ghost faults = { λ sink. sink };

    fn write(&mut self, piece: &[u8]) -> Result<usize, WriteRefusal> {
        match write_through(&mut self.output, piece) {
            Some(count) => Ok(count),
            None => {
                self.faults = self.faults.saturating_add(1);
                Err(WriteRefusal::Failed)
            }
        }
    }
}

// One write, flushed, and tried again where a signal interrupts it. Where no byte is taken it has failed.
fn write_through(output: &mut Stdout, piece: &[u8]) -> Option<usize>
    ensures { IfSome result (λ n. (0 < n) × (n ≤ length piece.now)) }
{
    for _ in 0..MAX_TRIES {
        match output.write(piece) {
            Ok(0) => return None,
            Ok(count) => {
                output.flush().ok()?;
                return Some(count);
            }
            Err(error) => {
                if error.kind() != ErrorKind::Interrupted {
                    return None;
                }
            }
        }
    }
    None
}
