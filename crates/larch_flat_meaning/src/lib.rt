//! Flat traits: definitions, examples of them, and their laws. No function here does anything.
#![tactic(auto)]

pub mod examples;
pub mod laws;

// Passed on to crates above, which then needn't list these crates.
pub mod from_shorthand {
    pub use larch_shorthand::{ExpandRefusal, Expansion, expand, expand_operators};
}

pub mod from_sorts {
    pub use larch_shorthand::from_sorts::read_lone;
}

pub mod from_sorts_known {
    pub use larch_shorthand::from_sorts_known::{SortSet, existing_sorts};
}

pub mod from_sorts_meaning {
    pub use larch_shorthand::from_sorts_meaning::{ReadRefusal, Scope};
}

pub mod from_sorts_signature {
    pub use larch_shorthand::from_sorts_signature::Signature;
}

pub mod from_traits_items {
    pub use larch_shorthand::from_traits_items::{
        TraitRefusal, declare, declare_variables, operator_of, state_items,
    };
}
