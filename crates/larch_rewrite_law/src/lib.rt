//! Laws of normal forms for whoever makes them: what one costs, which is the same under every budget, and how the work
//! goes on argument by argument. What stands here are definitions and laws, and has no code.
#![tactic(auto)]

mod costs;
mod levels;
mod waiting;

pub use costs::{costs_are_charged, made_at_a_cost};
pub use levels::{arguments_go_on, roots_go_on, terms_begin};
pub use waiting::waiting_ends;
