//! Lines that turn equations into formulas and back, and lines of what follows from an equation.
#![tactic(auto)]

mod absurdity;
mod consequences;
mod deductions;
mod formulas;
mod instances;

pub use absurdity::absurd;
pub use consequences::{Consequences, deduce};
pub use deductions::{
    BothLines, push_conjuncts, push_disjuncts, push_false, push_implication_parts, push_true,
};
pub use formulas::{push_equality, push_equation, push_equivalent, push_formula};

// Passed on to crates above, which then needn't list these crates.
pub mod from_derive_lines {
    pub use larch_derive_lines::{
        push_again, push_argument, push_inst, push_refl, push_row, push_sym, push_trans,
    };
}
