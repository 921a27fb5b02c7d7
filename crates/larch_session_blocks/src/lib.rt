//! The blocks of scripts: that of a duty, and those that no duty has.
#![tactic(auto)]

mod blocks;
mod faults;

pub use blocks::{block_of, commands_for, line_at, line_of_block, same_label};
pub use faults::push_script_lines;

// Passed on to crates above, which then needn't list these crates.
pub mod from_duties {
    pub use larch_session_meaning::from_duties::{Claim, Claims, trait_claims};
}

pub mod from_flat {
    pub use larch_session_meaning::from_flat::flatten;
}

pub mod from_traits {
    pub use larch_session_meaning::from_traits::{Files, TraitRefusal, read_files};
}
