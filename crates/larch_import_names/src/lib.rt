//! New names for sorts and operators, pair by pair, and statements by them.
#![tactic(auto)]

mod apartness;
pub mod laws;
mod names;
mod pairs;
mod renaming;

pub use apartness::apart;
pub use names::{rename_operator, rename_sort};
pub use pairs::{OperatorPair, OperatorPairs, Renaming, SortPair, SortPairs};
pub use renaming::{rename_statement, rename_term};
