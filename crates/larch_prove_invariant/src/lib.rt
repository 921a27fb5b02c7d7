//! What a builder of certificates holds of a proof's levels while commands are carried out. What stands here are
//! definitions and laws, and has no code.
#![tactic(auto)]

mod constants;
mod ends;
mod facts;
mod levels;
mod terms;
mod words;

pub use constants::{
    constants_are_apart, constants_of_plans, levels_keep_constants, settings_agree,
};
pub use ends::{
    clauses_end, levels_are_left, methods_end, proofs_are_accepted, subgoals_are_left,
    subgoals_are_said,
};
pub use facts::{deductions_agree, pairs_can_be_written};
pub use levels::{
    boxes_are_closed, boxes_are_open, extra_boxes_are_opened, growing_keeps_levels,
    levels_are_entered, levels_are_said, lines_change_levels, methods_run,
};
pub use terms::{
    first_goals_are_known, open_terms_are_known, proofs_are_in_words, subgoals_are_known,
    unopened_constants,
};
pub use words::{what_commands_read_is_in_words, words_are_words};

// Passed on to crates above, which then needn't list these crates.
pub mod from_derive_boxes {
    pub use larch_methods::from_derive_boxes::{close_box, push_hyp};
}

pub mod from_derive_formulas {
    pub use larch_derive_formulas::{
        BothLines, Consequences, absurd, deduce, push_equality, push_equation,
    };
}

pub mod from_derive_lines {
    pub use larch_derive_formulas::from_derive_lines::{
        push_again, push_argument, push_inst, push_refl, push_row, push_sym, push_trans,
    };
}

pub mod from_methods {
    pub use larch_methods::{
        Clause, finish_cases, finish_conjunction, finish_contradiction, finish_generated,
        finish_implication, finish_induction, finish_partition, finish_partitioned, open_constants,
        open_subgoal, push_contradicted, push_implied, push_outside,
    };
}

pub mod from_order {
    pub use larch_methods::from_order::Precedence;
}

pub mod from_prove_plans {
    pub use larch_methods::from_prove_plans::{
        BinaryTerm, Method, Plan, Subgoal, closed_by, closed_implication, equality_in, formula,
        free_name, generating_clause, generation_goal, induction_variable, partition_goal,
        partitioning_clause, truth,
    };
}
