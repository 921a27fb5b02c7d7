//! The precedence of operators and the path ordering of terms that it gives.
#![tactic(auto)]

mod greater;
pub mod laws;
mod of_theory;
mod precedence;

pub use larch_base::Way;
pub use precedence::{OrderRefusal, Precedence, Ranked};
