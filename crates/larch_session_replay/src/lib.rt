//! The duties of a trait, replayed by a script: what each comes to, with its state, and the lines of a report on them.
#![tactic(auto)]

mod carrying;
mod duty;
mod laws;
mod lemmas;
mod lines;
mod replayed;
mod replaying;

pub use laws::what_is_replayed_is_certified;
pub use lines::push_trait_lines;
pub use replayed::{Replayed, Replays, steps_of};
pub use replaying::replay_duties;

// Passed on to crates above, which then needn't list these crates.
pub mod from_duties {
    pub use larch_session_blocks::from_duties::{Claims, trait_claims};
}

pub mod from_flat {
    pub use larch_session_blocks::from_flat::flatten;
}

pub mod from_prove {
    pub use larch_prove::Outcome;
}

pub mod from_session_sources {
    pub use larch_session_sources::{Looked, has_trait, script_among};
}

pub mod from_traits {
    pub use larch_session_blocks::from_traits::{Files, TraitRefusal, read_files};
}
