//! Terms, statements and theories with other sorts and operators in the places of their own: definitions and their
//! laws. No function here does anything.
#![tactic(auto)]

pub mod laws;
