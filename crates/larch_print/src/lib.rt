//! Terms, statements and operators as texts.
//!
//! Printing goes down a term by recursion, as the operations of `larch_term` do.
#![tactic(auto)]

mod print;

pub use print::{
    print_operator, print_statement, print_term, write_operator, write_signature, write_statement,
    write_term,
};
