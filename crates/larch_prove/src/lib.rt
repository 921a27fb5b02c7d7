//! Proofs of duties, command by command: each state is the one that the definitions have, with the certificate so far.
#![tactic(auto)]

mod beginning;
mod duty;
mod going;
mod marks;
mod outcome;
mod preparing;
mod state;
mod stepping;

pub use duty::ProofDuty;
pub use larch_prove_beginning::from_prove_opening::Lemma;
pub use outcome::{Outcome, Place};
pub use state::ProofState;
