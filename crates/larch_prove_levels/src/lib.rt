//! The levels of a proof with the lines and boxes that say them: how hypotheses are supposed, how a goal gets its
//! normal form, and whether it is proved.
#![tactic(auto)]

mod further;
mod laws;
mod level;
mod settled;
mod supposing;

pub use further::{derive, said_true};
pub use laws::{goals_settle, levels_rise, next_subgoals_are_opened};
pub use level::{Level, Planned, Purpose, Running};
pub use settled::line_of_goal;
pub use supposing::{Around, normalise_goal, suppose, suppose_all};

// Passed on to crates above, which then needn't list these crates.
pub mod from_derive {
    pub use larch_derive::Builder;
}

pub mod from_derive_lines {
    pub use larch_prove_boxes::from_derive_lines::{push_refl, push_trans};
}

pub mod from_prove_adding {
    pub use larch_prove_adding::{Facts, Instance, LevelGoal, Manner, SaidEquation, normal_goal};
}

pub mod from_prove_boxes {
    pub use larch_prove_boxes::{
        Beginning, Entrance, Leave, Lefts, begin_clause, begin_equation, close_extras, end_duty,
        end_method, enter_subgoal, leave_subgoal, open_constants_of, open_shared,
    };
}

pub mod from_prove_plans {
    pub use larch_prove_boxes::from_prove_plans::{Method, Subgoal, formula};
}

pub mod from_rewrite {
    pub use larch_prove_adding::from_rewrite::RewriteRefusal;
}
