//! What a reference gives in place of all sorts and operators of the trait that it names, pair by pair.
#![tactic(auto)]

pub mod laws;
mod naming;
mod pairs;

pub use naming::renaming;
pub use pairs::pairs_by;
