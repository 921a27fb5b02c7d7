//! What holds of all terms, their places, variables and substitutions: laws alone. No function here does anything.
#![tactic(auto)]

pub mod laws;
