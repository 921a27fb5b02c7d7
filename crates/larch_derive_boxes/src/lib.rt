//! Boxes of a builder: opening them, what is supposed in them, and what is left of them.
#![tactic(auto)]

mod boxes;
pub mod laws;

pub use boxes::{close_box, push_cases, push_fresh, push_hyp};

// Passed on to crates above, which then needn't list these crates.
pub mod from_derive {
    pub use larch_derive::Builder;
}
