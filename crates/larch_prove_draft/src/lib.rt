//! A proof while commands work on it: its levels, marks and numbers, and the builder that holds them.
#![tactic(auto)]

mod draft;
mod proving;

pub use draft::{Draft, mark};
pub use proving::Proving;

// Passed on to crates above, which then needn't list these crates.
pub mod from_derive_lines {
    pub use larch_prove_levels::from_derive_lines::{push_refl, push_trans};
}

pub mod from_prove_adding {
    pub use larch_prove_levels::from_prove_adding::{
        Facts, Instance, LevelGoal, Manner, SaidEquation, normal_goal,
    };
}

pub mod from_prove_boxes {
    pub use larch_prove_levels::from_prove_boxes::{
        Beginning, Entrance, Leave, Lefts, begin_clause, begin_equation, close_extras, end_duty,
        end_method, enter_subgoal, leave_subgoal, open_constants_of, open_shared,
    };
}

pub mod from_prove_levels {
    pub use larch_prove_levels::{
        Around, Level, Planned, Purpose, Running, derive, line_of_goal, normalise_goal, said_true,
        suppose_all,
    };
}

pub mod from_prove_plans {
    pub use larch_prove_levels::from_prove_plans::{Method, Subgoal, formula};
}

pub mod from_rewrite {
    pub use larch_prove_levels::from_rewrite::RewriteRefusal;
}
