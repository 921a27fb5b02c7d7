//! What completion answers: which rules are made of a theory's equations, and whether these decide them. Definitions
//! that compute, and laws; no function here does anything.
#![tactic(auto)]

mod answer;
pub mod examples;
pub mod laws;

pub use answer::CompletionAnswer;
