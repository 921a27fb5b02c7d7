//! What the lines of a certificate say, and when a certificate is accepted. Definitions, and examples that they
//! compute; no function here does anything.
#![tactic(auto)]

pub mod examples;
