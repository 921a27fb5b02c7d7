//! The checker of certificates: whether one shows that a statement is derivable from a theory.
#![tactic(auto)]

mod boxes;
mod ending;
mod judging;
mod keeping;
mod steps;
mod verdict;
mod verifying;

pub use verdict::Verdict;
pub use verifying::verify;
