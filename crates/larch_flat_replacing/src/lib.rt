//! What a reference to a trait puts in place of its names, and the renaming of statements by it.
//!
//! The renaming of a statement goes down its terms by recursion, as the copying of terms does.
#![tactic(auto)]

mod new_names;
mod old_names;
mod renaming;
mod replacements;
mod replacing;

pub use new_names::NewNames;
pub use replacements::Replacements;
pub use replacing::replacements_of;
