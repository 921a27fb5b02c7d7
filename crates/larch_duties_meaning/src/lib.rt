//! What a trait claims: its duties, as definitions that compute, with worked examples. No function here does anything.
#![tactic(auto)]

mod examples;
mod laws;
mod texts;

pub use examples::{
    a_converted_operator_is_its_copy, an_exempted_term_is_the_same_by_the_copies,
    clauses_are_copied, clauses_number_on, copies_have_free_names, duties_are_not_too_many,
    operators_are_converted_together, what_is_assumed_is_discharged, what_is_implied_is_numbered,
    what_is_wrong_with_a_conversion, what_is_wrong_with_an_implied_reference,
    what_is_wrong_with_an_implied_trait,
};
pub use laws::{
    claims_are_duties, clauses_have_one_theory, duties_are_in_words, duties_are_sound,
    duties_are_told, duties_have_plain_names, what_is_reached_decides_duties,
};
pub use texts::{
    operators_statements_and_duties_are_listed, what_clauses_add_is_listed,
    what_is_assumed_is_listed,
};

// Passed on to crates above, which then needn't list these crates.
pub mod from_traits_items {
    pub use larch_flat_meaning::from_traits_items::TraitRefusal;
}
