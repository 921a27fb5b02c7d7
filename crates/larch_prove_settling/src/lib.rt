//! What it leads to that the current goal of a proof is proved: subgoals are opened in turn, methods end, and what
//! commands have proved is added below.
#![tactic(auto)]

mod beginning;
mod entering;
mod methods;
mod parts;
mod rising;

pub use beginning::{end_at_once, open_first};
pub use rising::settle;

// Passed on to crates above, which then needn't list these crates.
pub mod from_derive_lines {
    pub use larch_prove_draft::from_derive_lines::push_refl;
}

pub mod from_prove_adding {
    pub use larch_prove_draft::from_prove_adding::{
        Facts, Instance, LevelGoal, Manner, SaidEquation, normal_goal,
    };
}

pub mod from_prove_boxes {
    pub use larch_prove_draft::from_prove_boxes::{
        Beginning, begin_clause, begin_equation, open_constants_of, open_shared,
    };
}

pub mod from_prove_draft {
    pub use larch_prove_draft::{Draft, Proving};
}

pub mod from_prove_levels {
    pub use larch_prove_draft::from_prove_levels::{
        Around, Level, Planned, Purpose, Running, derive, line_of_goal, normalise_goal, suppose_all,
    };
}

pub mod from_prove_plans {
    pub use larch_prove_draft::from_prove_plans::formula;
}

pub mod from_rewrite {
    pub use larch_prove_draft::from_rewrite::RewriteRefusal;
}
