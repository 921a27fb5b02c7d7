//! Critical pairs with their lines: two rules that lines say → the equations of their critical pairs, each with a line
//! that says it.
#![tactic(auto)]

mod pairs;
mod said;

pub use pairs::{push_pairs, say_pair};
pub use said::{SaidEquation, SaidRule};

// Passed on to crates above, which then needn't list these crates.
pub mod from_derive_lines {
    pub use larch_derive_lines::{push_inst, push_refl};
}
