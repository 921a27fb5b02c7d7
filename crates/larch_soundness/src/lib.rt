//! The calculus is sound: nothing derivable from a well sorted theory fails in a finite model of it. And why its rules
//! have side conditions. Laws alone; no function here does anything.
#![tactic(auto)]

pub mod conditions;
pub mod examples;
pub mod laws;
