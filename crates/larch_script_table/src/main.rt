//! Reads scripts from standard input, with a byte 0 between any two, and prints the commands and blocks of each, one a
//! line, with a byte 0 behind each script: a table to compare with another reader's.
//!
//! A command is its line, its kind and its parts; a block is `block`, its line and its label. What stands in a term or
//! a reference is a name in bars with its position.
#![tactic(auto)]

mod part;
mod table;

use std::io;
use std::io::{Read, Write};
use table::answers;

fn main(rt: HostRuntime) -> io::Result<()> {
    let mut texts = Vec::new(rt.alloc());
    rt.stdin().read_to_end(&mut texts)?;
    if let Ok(answer) = answers(rt.alloc(), &texts) {
        rt.stdout().write_all(answer.bytes())?;
    }
    Ok(())
}
