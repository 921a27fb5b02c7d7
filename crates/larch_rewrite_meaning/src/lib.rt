//! Normal forms of terms, defined: patterns, rules, and leftmost innermost rewriting under a budget. What stands here
//! computes, and has no code.
#![tactic(auto)]

mod examples;
mod laws;

pub use examples::{
    a_budget_is_too_small, a_budget_is_used_up, a_start_is_too_large, a_variable_matches_its_sort,
    an_application_is_too_large, an_equality_is_exchanged, nothing_to_do, rows_come_first,
    rows_have_a_sort, the_left_argument_comes_first,
};
pub use laws::{
    budget_falls, matches_are_instances, normal_forms_are_normal, normal_forms_keep_sorts,
    normal_goes_on,
};

// Passed on to crates above, which then needn't list these crates.
pub mod from_tables {
    pub use larch_tables::{Row, RowRefusal, built_in, row_statement};
}
