//! The tables of rows: the equations by which built-in operators are rewritten, and the rows that say what follows
//! from an equation between built-in terms.
#![tactic(auto)]

pub mod laws;
mod row;
mod spelling;
mod statement;
mod tables;

pub use row::{Row, Side, Sides, Table};
pub use statement::{RowRefusal, row_statement};
pub use tables::{built_in, deductions};
