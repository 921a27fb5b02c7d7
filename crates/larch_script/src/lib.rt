//! The reader of scripts: from a text to its commands and blocks.
#![tactic(auto)]

mod commands;
mod draft;
mod facts;
mod instances;
mod laws;
mod line;
mod numbers;
mod read;
mod register;
mod terms;
mod tokens;

pub use laws::commands_are_in_words;
pub use read::read_script;
