//! What lines of certificates say of clauses: an equation by what observers show, and clauses by the results of
//! closed boxes.
#![tactic(auto)]

mod constants;
mod generated;
mod inheriting;
mod known;
mod observe;
mod observed;
mod observers;
mod partitioned;
mod unbound;
mod variables;

pub use generated::judge_generated;
pub use observe::judge_observe;
pub use partitioned::judge_partitioned;
