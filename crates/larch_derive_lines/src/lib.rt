//! The lines that rules write: for each rule a call that pushes its line on a builder, and says what the line says. And
//! ways from a term to what it is rewritten to: none where nothing has changed, else a line that says that both are
//! equal.
#![tactic(auto)]

mod chains;
pub mod laws;
mod rules;

pub use chains::{push_argument, push_further, push_way};
pub use rules::{
    push_again, push_axiom, push_equal, push_inst, push_refl, push_repl, push_row, push_sym,
    push_trans, push_written_inst,
};

// Passed on to crates above, which then needn't list these crates.
pub mod from_derive {
    pub use larch_derive::Builder;
}
