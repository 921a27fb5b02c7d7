//! The files of a session, what is read of them, and what decides their traits.
#![tactic(auto)]

mod deciding;
mod files;
pub mod laws;
mod reading;

pub use deciding::deciding_stems;
pub use files::Files;
pub use larch_duties_meaning::from_traits_items::TraitRefusal;
pub use reading::{read_files, read_text};

// Passed on to crates above, which then needn't list these crates.
pub mod from_flat {
    pub use larch_flat::{FlatTraits, flatten};
}

pub mod from_flat_sources {
    pub use larch_flat::from_flat_sources::Sources;
}
