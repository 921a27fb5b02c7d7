//! How often a raw term reads at each sort: sorts and operators as numbers, and counts of readings.
#![tactic(auto)]

mod count;
mod counts;
mod number_list;
mod numbers;
mod pairing;
pub mod tally;
mod words;

pub use count::Count;
pub use counts::{Counted, counts_of};
pub use number_list::NumberList;
pub use numbers::{Numbered, Numbers, all_differ};
pub use tally::SortCounts;

// Passed on to crates above, which then needn't list these crates.
pub mod from_sorts_known {
    pub use larch_sorts_meaning::from_sorts_known::{SortSet, existing_sorts, push_built_ins};
}

pub mod from_sorts_meaning {
    pub use larch_sorts_meaning::{
        Found, ReadRefusal, Scope, equation_head, head_of, variable_sort,
    };
}
