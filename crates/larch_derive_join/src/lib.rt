//! Certificates of lemmas and of what is proved with them, joined into one: what that is, and that it is accepted.
#![tactic(auto)]

pub mod examples;
mod item;
mod join;
pub mod laws;
mod lemma;
mod line;
mod part;
mod shift;
mod term;

pub use join::inline;
pub use part::{Part, Parts};
