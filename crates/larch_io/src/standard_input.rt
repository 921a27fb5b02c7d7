ghost use Rattle.std.specs.Prelude.{◌≡◌, ◌≤◌, None, length, IfSome};

use crate::refusal::Failed;
use crate::source::Source;
use std::io::{ErrorKind, Read};
use std::marker::Model;
use std::rt::Stdin;

/// How often a read is tried that signals interrupt.
const MAX_TRIES: u32 = 1_000;

/// The standard input of the program. Contracts see it as the count of its faults.
#[derive(Drop)]
pub struct StandardInput {
    input: Stdin,
    faults: u64,
}

impl Model for StandardInput {
    ghost use Rattle.std.specs.Prelude.{ℕ};

    ghost Value = { ℕ };

    ghost view = { λ source. source.faults };
}

impl StandardInput {
    /// The standard input, without a fault yet. The runtime is what `main` and tests are handed.
    pub fn new(rt: &HostRuntime) -> StandardInput
        ensures { result ≡ 0 }
    {
        StandardInput {
            input: rt.stdin(),
            faults: 0,
        }
    }
}

impl Source for StandardInput {
    ghost left = { λ _. None };

    ghost faults = { λ source. source };

    fn read(&mut self, piece: &mut [u8]) -> Result<usize, Failed> {
        match read_untroubled(&mut self.input, piece) {
            Some(count) => Ok(count),
            None => {
                self.faults = self.faults.saturating_add(1);
                Err(Failed)
            }
        }
    }
}

// One read, tried again where a signal interrupts it.
fn read_untroubled(input: &mut Stdin, piece: &mut [u8]) -> Option<usize>
    ensures { IfSome result (λ n. n ≤ length piece.new) }
{
    for _ in 0..MAX_TRIES {
        match input.read(piece) {
            Ok(count) => return Some(count),
            Err(error) => {
                if error.kind() != ErrorKind::Interrupted {
                    return None;
                }
            }
        }
    }
    None
}
