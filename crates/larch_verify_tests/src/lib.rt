//! Tests of the checker, on the texts of theories and certificates.
#![tactic(auto)]

#[cfg(test)]
mod joins;
#[cfg(test)]
mod making;
#[cfg(test)]
mod rules;
#[cfg(test)]
mod verify;
