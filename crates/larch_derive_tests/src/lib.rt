//! Tests of the crates that build proofs: what single calls write.
#![tactic(auto)]

#[cfg(test)]
mod derive;
