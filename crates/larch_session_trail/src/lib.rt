//! The states of a block that was replayed: one behind its opening, and one behind each command that was carried out.
//! Another block that begins alike goes on from one of them.
#![tactic(auto)]

mod carrying;
mod fronts;
mod trail;

pub use fronts::common_front;
pub use trail::Trail;

// Passed on to crates above, which then needn't list these crates.
pub mod from_prove {
    pub use larch_prove::{Lemma, Outcome, ProofDuty, ProofState};
}
