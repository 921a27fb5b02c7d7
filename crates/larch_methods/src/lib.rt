//! The boxes of proof methods' subgoals, and the ends of methods: from what subgoals left, in boxes and lines, the line
//! that the method's goal is true.
#![tactic(auto)]

mod arguments;
mod boxes;
mod cases;
mod clauses;
mod conjunction;
mod contradiction;
mod implication;
mod induction;
pub mod laws;
mod naming;
mod numbers;
mod opening;
mod outside;
mod partition;
mod refusals;
mod rows;

pub use boxes::{push_freed, supposing_box};
pub use cases::finish_cases;
pub use clauses::{Clause, finish_generated, finish_partitioned};
pub use conjunction::finish_conjunction;
pub use contradiction::{finish_contradiction, push_contradicted};
pub use implication::{finish_implication, push_implied};
pub use induction::finish_induction;
pub use opening::{open_constants, open_subgoal};
pub use outside::push_outside;
pub use partition::finish_partition;

// Passed on to crates above, which then needn't list these crates.
pub mod from_derive_boxes {
    pub use larch_derive_clauses::from_derive_boxes::{close_box, push_hyp};
}

pub mod from_order {
    pub use larch_prove_plans::from_order::Precedence;
}

pub mod from_prove_plans {
    pub use larch_prove_plans::{
        BinaryTerm, Method, Plan, Subgoal, closed_by, closed_implication, equality_in, formula,
        free_name, generating_clause, generation_goal, induction_variable, partition_goal,
        partitioning_clause, truth,
    };
}
