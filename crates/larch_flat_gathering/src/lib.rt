//! What is gathered for a flat trait, in code: operators and statements, each where it occurs first, until a limit is
//! passed for certain.
#![tactic(auto)]

mod expanding;
mod flat;
mod store;
mod trait_;

pub use flat::Flat;
pub use store::Gathering;

// Passed on to crates above, which then needn't list these crates.
pub mod from_flat_statements {
    pub use larch_flat_statements::{MarkedStatements, new_among};
}
