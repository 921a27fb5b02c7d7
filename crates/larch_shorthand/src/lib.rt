//! What shorthands stand for: the operators and statements of enumerations, tuples and unions.
#![tactic(auto)]

mod append;
mod enumeration;
pub mod examples;
mod expansion;
pub mod laws;
mod operators;
mod refusal;
mod shorthand;
mod tuple;
mod union_;

pub use expansion::Expansion;
pub use refusal::ExpandRefusal;
pub use shorthand::{expand, expand_operators};

// Passed on to crates above, which then needn't list these crates.
pub mod from_sorts {
    pub use larch_traits_items::from_sorts::read_lone;
}

pub mod from_sorts_known {
    pub use larch_traits_items::from_sorts_known::{SortSet, existing_sorts};
}

pub mod from_sorts_meaning {
    pub use larch_traits_items::from_sorts_meaning::{ReadRefusal, Scope};
}

pub mod from_sorts_signature {
    pub use larch_traits_items::from_sorts_signature::Signature;
}

pub mod from_traits_items {
    pub use larch_traits_items::{
        TraitRefusal, declare, declare_variables, operator_of, state_items,
    };
}
