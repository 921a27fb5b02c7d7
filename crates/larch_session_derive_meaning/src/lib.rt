//! What is derived of the duties that a report calls proved, defined; and that `verify` accepts it.
#![tactic(auto)]

pub mod laws;

// Passed on to crates above, which then needn't list these crates.
pub mod from_duties {
    pub use larch_session_law::from_duties::{Claims, place_of, trait_claims};
}

pub mod from_flat {
    pub use larch_session_law::from_flat::flatten;
}

pub mod from_traits {
    pub use larch_session_law::from_traits::{Files, TraitRefusal, read_files};
}
