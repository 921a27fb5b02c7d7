//! Traits that a seed makes, each with its script, and what is written of them.
#![tactic(auto)]

mod examples;
mod file;
mod files;
mod summary;
mod writing;

pub use file::GeneratedFile;
pub use files::generated_files;
pub use summary::generated_text;
