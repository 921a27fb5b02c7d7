//! Why the law of certificates has its two premises: for each one, a certificate that is accepted without it for a
//! statement that isn't derivable. No function here does anything.
#![tactic(auto)]

pub mod conditions;
