//! What traits declare and state: operators, variables in scope and statements, or what is wrong with these first.
#![tactic(auto)]

mod append;
mod declarations;
mod index;
mod items;
pub mod laws;
mod presentation;
mod references;
mod refusal;
mod variables;

pub use declarations::{declare, operator_of};
pub use items::{state_item, state_items};
pub use presentation::present;
pub use references::find_operator;
pub use refusal::TraitRefusal;
pub use variables::declare_variables;

// Passed on to crates above, which then needn't list these crates.
pub mod from_raw {
    pub use larch_raw::{RawField, RawShorthand, RawWord};
}

pub mod from_sorts {
    pub use larch_sorts::read_lone;
}

pub mod from_sorts_known {
    pub use larch_sorts::from_sorts_known::{SortSet, existing_sorts};
}

pub mod from_sorts_meaning {
    pub use larch_sorts::from_sorts_meaning::{ReadRefusal, Scope};
}

pub mod from_sorts_signature {
    pub use larch_sorts::from_sorts_signature::Signature;
}
