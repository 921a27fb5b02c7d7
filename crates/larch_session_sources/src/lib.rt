//! What is read of a session's files: the script of a stem among them, and what a report goes by.
#![tactic(auto)]

mod looked;
mod scripts;

pub use looked::Looked;
pub use scripts::{has_trait, script_among};
