//! Unifiers of terms.
//!
//! The calls go down a term by recursion, so a term that is 5,000 deep takes 4 MB of stack at most.
#![tactic(auto)]

mod demand;
pub mod laws;
mod refusal;
mod replacing;
mod unifier;

pub use refusal::PairRefusal;
pub use replacing::substitute_within;
pub use unifier::{Entries, substitution_of, unify, variables_of_both};
