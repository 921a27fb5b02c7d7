//! Terms, statements and theories, and the operations on them.
//!
//! `size`, `copy`, `substitute`, `replace_at`, `same_term`, `is_well_sorted` and `variables` go down a term by
//! recursion. A level takes below 400 bytes of stack, so a term that is 5,000 deep takes 2 MB at most. `at` and the
//! drop of a term are loops, so terms of any depth are dropped.
#![tactic(auto)]

mod arguments;
mod built_in;
mod copying;
mod counting;
mod equality;
pub mod laws;
mod operator;
mod operator_key;
mod place;
mod sorts;
mod statement;
mod substitution;
mod term;
mod truth;
mod variable;

pub use arguments::{TwoArguments, two_arguments};
pub use built_in::{BuiltIn, bool_sort, built_in_of, is_built_in};
pub use copying::{copy, copy_operators, copy_statement, copy_statements, copy_theory};
pub use counting::size;
pub use equality::{same_operators, same_statement, same_statements, same_term, same_theory};
pub use operator::{Operator, Sort, Sorts, same_operator};
pub use place::{ReplaceRefusal, at, replace_at};
pub use sorts::{is_well_sorted, sort_of};
pub use statement::{Operators, Statement, Statements, Theory};
pub use substitution::{Entry, Substitution, substitute};
pub use term::{Node, Term, Terms};
pub use truth::is_truth;
pub use variable::{Variable, Variables, add_variables, variables};

// Passed on to crates above, which then needn't list these crates.
pub mod from_base {
    pub use larch_base::{Bytes, Memory, Name, Sequence, is_word, let_go};
}
