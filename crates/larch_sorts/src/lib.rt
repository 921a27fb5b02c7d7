//! Readings: from raw terms with overloaded operators to the one well sorted statement, or the refusal.
#![tactic(auto)]

mod counted;
mod found;
mod lone;
mod narrow;
mod pick;
mod read;
mod sides;
mod tabulate;
mod told;
mod unknown;
mod width;

pub use lone::read_lone;
pub use read::read_in;

// Passed on to crates above, which then needn't list these crates.
pub mod from_sorts_known {
    pub use larch_sorts_signature::from_sorts_known::{SortSet, existing_sorts};
}

pub mod from_sorts_meaning {
    pub use larch_sorts_meaning::{ReadRefusal, Scope};
}

pub mod from_sorts_signature {
    pub use larch_sorts_signature::Signature;
}
