//! Scripts as they are written: commands, blocks, and when two commands are equal.
#![tactic(auto)]

mod command;
mod equation;
mod laws;
mod reference;
mod same;
mod script;

pub use command::{CommandKind, Commands, RawCommand, RawInstance, RawInstances};
pub use laws::one_sameness;
pub use same::{same_command, same_commands};
pub use script::{Block, Blocks, Script};
