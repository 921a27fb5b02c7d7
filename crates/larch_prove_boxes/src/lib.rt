//! What opens and closes the boxes of a proof's levels while its certificate is written.
#![tactic(auto)]

mod beginning;
mod cases;
mod conjunction;
mod constants;
mod contradiction;
mod ending;
mod entering;
mod equality;
mod finishing;
mod implication;
mod induction;
mod leave;
mod leaving;
mod lefts;
mod partition;
mod saying;
mod sharing;
mod to_open;

pub use beginning::{Beginning, begin_clause, begin_equation};
pub use constants::{open_constant, open_constants_of};
pub use ending::{Lefts, end_method};
pub use entering::{Entrance, enter_subgoal};
pub use finishing::{clauses_have_boxes, end_duty};
pub use leave::{Leave, leave_subgoal};
pub use leaving::close_extras;
pub use sharing::open_shared;

// Passed on to crates above, which then needn't list these crates.
pub mod from_derive {
    pub use larch_derive::{Builder, OpenBox, OpenBoxes};
}

pub mod from_derive_formulas {
    pub use larch_prove_invariant::from_derive_formulas::absurd;
}

pub mod from_derive_lines {
    pub use larch_prove_invariant::from_derive_lines::{push_refl, push_trans};
}

pub mod from_order {
    pub use larch_prove_invariant::from_order::Precedence;
}

pub mod from_prove_plans {
    pub use larch_prove_invariant::from_prove_plans::{Method, Plan, Subgoal, formula};
}
