//! One session over a source and a sink: its commands, its steps, its reports and how it ends.
#![tactic(auto)]

mod command;
pub mod laws;
mod progress;
mod session;

pub use command::Command;
pub use larch_main_status::{Halt, Status, say_at_end};
pub use progress::{Move, Progress, advance};
pub use session::run_session;

// Passed on to crates above, which then needn't list these crates.
pub mod from_session {
    pub use larch_session::Session;
}
