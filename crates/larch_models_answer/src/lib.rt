//! What is written where a text is looked at as a model of a trait: whether it is one, and which claims hold in it.
#![tactic(auto)]

mod claim;
mod finding;
mod judging;
mod laws;

pub use finding::{Ending, Finding};
pub use judging::judge_model;
pub use laws::{derivable_claims_hold, failing_claims_fail};
