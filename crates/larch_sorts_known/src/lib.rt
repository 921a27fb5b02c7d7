//! Which sorts exist beside operators, and the built-in operators at those sorts.
#![tactic(auto)]

mod built_ins;
mod sorts;

pub use built_ins::push_built_ins;
pub use sorts::{SortSet, existing_sorts};
