//! What an accepted certificate means: its statement is derivable. Laws about the definitions of
//! `larch_verify_meaning`; no function here does anything.
#![tactic(auto)]

pub mod laws;
