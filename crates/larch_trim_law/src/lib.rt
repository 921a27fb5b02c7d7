//! That a certificate stays accepted where the lines that its end doesn't need are left out, and what is left then.
#![tactic(auto)]

pub mod laws;
