//! The written calculus: what is derivable from a theory, and the first laws about it. Definitions and laws alone;
//! no function here does anything.
#![tactic(auto)]

pub mod example;
pub mod laws;

// Passed on to crates above, which then needn't list these crates.
pub mod from_base {
    pub use larch_term::from_base::{Memory, Name, Sequence};
}

pub mod from_term {
    pub use larch_term::{BuiltIn, Sort, Statement, Term, Terms, bool_sort};
}
