//! The flat traits of files that refer to one another: each is worked out once, when it is first asked for.
//!
//! References are followed by recursion, at most as deep as there are files, 256 in a session; a level takes a few
//! kilobytes of stack at most.
#![tactic(auto)]

mod flat_traits;
mod flattening;
mod laws;
mod taking;

pub use flat_traits::FlatTraits;
pub use flattening::{flatten, flatten_rest};
pub use laws::what_is_known_is_known_elsewhere;

// Passed on to crates above, which then needn't list these crates.
pub mod from_flat_gathering {
    pub use larch_flat_gathering::Flat;
}

pub mod from_flat_replacing {
    pub use larch_flat_replacing::{NewNames, Replacements, replacements_of};
}

pub mod from_flat_sources {
    pub use larch_flat_sources::{Sources, reached};
}

pub mod from_flat_statements {
    pub use larch_flat_gathering::from_flat_statements::{MarkedStatements, new_among};
}
