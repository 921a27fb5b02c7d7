//! Texts of certificates in the second version.
#![tactic(auto)]

pub mod laws;
mod migrating;

pub use migrating::migrate;
