//! What lines of certificates say, by numbers of a pool: a function for each rule.
#![tactic(auto)]

mod axiom;
mod equal;
mod hyp;
mod inst;
mod refl;
mod repl;
mod row;
mod sym;

pub use axiom::judge_axiom;
pub use equal::judge_equal;
pub use hyp::judge_hyp;
pub use inst::judge_inst;
pub use refl::judge_refl;
pub use repl::judge_repl;
pub use row::judge_row;
pub use sym::judge_sym;
