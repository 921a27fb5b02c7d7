//! Critical pairs of rules.
//!
//! The calls go down a term by recursion, so a term that is 5,000 deep takes 4 MB of stack at most.
#![tactic(auto)]

pub mod examples;
mod inner;
pub mod laws;
mod naming;
mod pair;
mod pairs;

pub use pair::{Pair, Pairs, Place, Rule};
pub use pairs::critical_pairs;

// Passed on to crates above, which then needn't list these crates.
pub mod from_pairs {
    pub use larch_pairs::{Entries, substitution_of};
}
