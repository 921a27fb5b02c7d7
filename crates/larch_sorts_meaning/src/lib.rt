//! What readings are: definitions of what raw terms over overloaded operators read as, laws of these, and what all ways
//! to read go by: the variables in scope, what was found, and a refusal.
#![tactic(auto)]

mod found;
mod heads;
pub mod laws;
mod refusal;
mod scope;

pub use found::Found;
pub use heads::{equation_head, head_of};
pub use refusal::ReadRefusal;
pub use scope::{Scope, variable_sort};

// Passed on to crates above, which then needn't list these crates.
pub mod from_base {
    pub use larch_base::{Memory, Name, Sequence};
}

pub mod from_raw {
    pub use larch_raw::{RawNode, RawTerm, RawTerms};
}

pub mod from_sorts_known {
    pub use larch_sorts_known::{SortSet, existing_sorts, push_built_ins};
}

pub mod from_term {
    pub use larch_term::{Operator, Operators, Sort};
}
