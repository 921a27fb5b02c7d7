//! Certificates over a theory that another theory has by new names: definitions, and that they are accepted there. No
//! function here does anything.
#![tactic(auto)]

pub mod examples;
pub mod laws;
