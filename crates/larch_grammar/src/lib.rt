//! The grammar of traits and terms: its relation, the machine that reads it, and the law that the two say the same;
//! what a token is to the grammar, and the names, terms, forms and items that a reader puts together of tokens.
//!
//! The reader that takes tokens with memory of its own is in the crate above.
#![tactic(auto)]

mod composition;
mod draft;
mod form;
pub mod laws;
mod machine;
mod names;
mod stack;
mod terminal;
mod traits;
mod trees;

pub use composition::{
    close_fields, close_ref, next_kind, open_fields, open_ref, with_actual, with_fields,
    with_shorthand,
};
pub use draft::Draft;
pub use form::{bracket_form, field_form, infix_form, plain_form, postfix_form, prefix_form};
pub use machine::{
    Before, Clause, FieldsKind, FormBracket, Frame, Link, Listing, Naming, OpenConversion,
    OpenFields, OpenItem, OpenRef, RefKind, Signing, State, VariablesFor, Waiting, Whole,
};
pub use stack::Stack;
pub use terminal::{Bracket, Terminal, ends_reference, position_of, terminal_of};
pub use traits::{
    close_conversion, equation_of, formula_of, implying, named, open_conversion, with_clause,
    with_converted, with_declaration, with_equations, with_exempted, with_group, with_last,
    with_reference, with_word,
};
pub use trees::{
    bracket_tree, call_tree, chain_tree, field_tree, if_tree, no_terms, postfix_tree, prefix_tree,
    qualified, with_term,
};

// Passed on to crates above, which then needn't list these crates.
pub mod from_grammar_law {
    pub use larch_grammar_law::Mark;
}
