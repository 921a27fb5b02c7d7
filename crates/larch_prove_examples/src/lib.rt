//! Scripts that the definitions of the prover replay by computing: each comes to what is said of it.
#![tactic(auto)]

mod examples;
mod order;
mod refusals;
mod reports;

pub use examples::{
    a_conversion_is_proved, a_conversion_with_a_choice, a_conversion_without_a_proof,
    a_critical_pair_contradicts, a_declared_variable_has_a_reading, a_generation_is_proved,
    a_hypothesis_is_instantiated, a_limit_is_met, a_limit_is_passed, a_mark_is_owed,
    a_mark_out_of_order, a_name_in_scope_may_be_declared_again, a_proof_may_end_twice,
    a_proved_formula_is_a_fact, a_table_without_a_proof, a_term_grows, a_term_is_too_large,
    a_waiting_mark_comes_first, an_assumption_is_discharged, an_implication_is_proved,
    an_implication_is_wanted, an_open_goal_is_suspended, cases_close_it, conjuncts_are_subgoals,
    constants_of_all_subgoals_differ, induction_on_numbers, induction_with_a_lemma, marks_in_order,
    marks_unchecked, observers_show_the_same, qed_wants_all_proved,
    the_wrong_variable_is_suspended, truth_values_are_generated,
};
pub use order::{at_most_a_thousand_commands, preambles, what_comes_first};
pub use refusals::{
    facts_by_name, pairs_in_turn, registered_heights, registered_statuses, shapes_and_clauses,
    what_has_no_reading, what_is_no_operator, what_is_not_declared, what_is_not_instantiated,
};
pub use reports::{
    a_session_of_two_reports, blocks_of_no_duty, lemmas_of_conversions, refused_openings,
    refused_preambles, what_is_done_again,
};
