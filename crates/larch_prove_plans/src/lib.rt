//! Plans of proof methods: what each method makes of a goal.
#![tactic(auto)]

mod cases;
mod clauses;
mod closing;
mod conjunction;
mod contradiction;
mod generation;
mod implication;
mod induction;
pub mod laws;
mod new_names;
mod observations;
mod partition;
mod places;
mod planning;
mod refusal;
mod same_shown;
mod shapes;
mod subgoals;
mod supposing;
mod terms;

pub use clauses::{generating_clause, partitioning_clause};
pub use closing::closed_by;
pub use generation::generation_goal;
pub use implication::closed_implication;
pub use induction::induction_variable;
pub use new_names::free_name;
pub use planning::plan;
pub use refusal::PlanRefusal;
pub use same_shown::partition_goal;
pub use shapes::{BinaryTerm, equality_in};
pub use subgoals::{Method, Plan, Subgoal, Subgoals};
pub use terms::{constant, falsity, formula, truth};

// Passed on to crates above, which then needn't list these crates.
pub mod from_order {
    pub use larch_prove_meaning::from_order::Precedence;
}
