//! Equations by induction and by observers, and clauses by closed boxes.
#![tactic(auto)]

mod clauses;
mod equations;
pub mod laws;

pub use clauses::{push_generated, push_partitioned};
pub use equations::{push_induct, push_observe};

// Passed on to crates above, which then needn't list these crates.
pub mod from_derive_boxes {
    pub use larch_derive_boxes::{close_box, push_cases, push_fresh, push_hyp};
}
