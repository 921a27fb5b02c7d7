//! What is written of a theory's completion.
#![tactic(auto)]

mod examples;
mod laws;
mod rules;
mod telling;

pub use examples::{a_completion_is_told, an_end_is_told};
pub use laws::what_is_told_complete_decides;
pub use telling::{Told, tell_completion};
