//! What is known of the operators that terms are read over, by their names: which there are, which make a sort, and
//! what those of a name make of arguments.
#![tactic(auto)]

pub mod application;
mod domain;
mod domains;
mod makers;
mod operators;
mod overloads;
mod place;
mod places;
mod reading;
mod signature;
pub mod table;

pub use domains::Domains;
pub use overloads::Overloads;
pub use places::Places;
pub use reading::{Reading, term_of};
pub use signature::{Signature, maker_of};
pub use table::Table;

// Passed on to crates above, which then needn't list these crates.
pub mod from_sorts_counts {
    pub use larch_sorts_counts::{Count, Counted, Numbered, Numbers, SortCounts, counts_of, tally};
}

pub mod from_sorts_known {
    pub use larch_sorts_counts::from_sorts_known::{SortSet, existing_sorts};
}

pub mod from_sorts_meaning {
    pub use larch_sorts_counts::from_sorts_meaning::{
        Found, ReadRefusal, Scope, equation_head, head_of, variable_sort,
    };
}
