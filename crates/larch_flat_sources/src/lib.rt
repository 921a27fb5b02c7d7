//! The texts of trait files as they were read, by number, and which of them lead to which.
#![tactic(auto)]

mod building;
mod laws;
mod links;
mod marks;
mod reaching;
mod search;
mod sources;

pub use laws::sources_are_among;
pub use links::{Links, links_of};
pub use marks::MarkedFiles;
pub use reaching::reached;
pub use sources::Sources;

// Passed on to crates above, which then needn't list these crates.
pub mod from_traits_items {
    pub use larch_flat_meaning::from_traits_items::TraitRefusal;
}
