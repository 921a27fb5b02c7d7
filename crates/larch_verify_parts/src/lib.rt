//! What rules of certificates share: the sides of what a line said, built-in terms, and numbers that differ.
#![tactic(auto)]

mod building;
mod different;
mod naming;

pub use building::{apply_built_in, apply_to, equality_in, falsity_in, truth_in, two_numbers};
pub use different::are_different;
pub use naming::{equation_of, sides_of};
