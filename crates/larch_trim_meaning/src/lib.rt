//! Which lines of a certificate its end needs, and the certificate without the others.
#![tactic(auto)]

pub mod examples;
