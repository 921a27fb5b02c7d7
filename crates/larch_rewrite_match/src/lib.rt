//! Which rule applies at the root of a shared term: patterns that match terms, rules that are found by their heads, and
//! the rows of built-in operators at a sort.
//!
//! Matching goes down a pattern by recursion, so a pattern that is 5,000 deep takes 2 MB of stack at most.
#![tactic(auto)]

mod patterns;
mod row_tables;
mod rows;
mod rule;
mod search;
mod shared;
mod table;

pub use patterns::{Bound, MatchBindings, matching, written_substitution};
pub use row_tables::RowTables;
pub use rows::rows_at;
pub use rule::{Reason, RewriteRule, sort_at};
pub use search::{Match, first_in_table, first_match};
pub use shared::{RuleList, SharedRule};
pub use table::RuleTable;
