//! Operators, statements and terms from the texts that the programs for comparisons read.
#![tactic(auto)]

mod parts;
mod term;
mod theory;

pub use parts::parts_of;
pub use term::{read_equation, read_term};
pub use theory::{read_operators, read_statements};
