//! What the commands of a block work on: settings, shared terms and a draft; and the command that proves a formula.
#![tactic(auto)]

mod boxes;
mod formula;
mod opened;
mod refusal;
mod work;

pub use boxes::open_boxes_for;
pub use formula::prove;
pub use refusal::command_refusal;
pub use work::{Claim, Work};

// Passed on to crates above, which then needn't list these crates.
pub mod from_derive {
    pub use larch_derive::OpenBox;
}

pub mod from_prove_adding {
    pub use larch_prove_settling::from_prove_adding::{
        Facts, Instance, LevelGoal, Manner, SaidEquation, normal_goal,
    };
}

pub mod from_prove_boxes {
    pub use larch_prove_settling::from_prove_boxes::open_shared;
}

pub mod from_prove_draft {
    pub use larch_prove_settling::from_prove_draft::{Draft, Proving};
}

pub mod from_prove_levels {
    pub use larch_prove_settling::from_prove_levels::{
        Around, Level, Planned, Running, derive, line_of_goal, normalise_goal,
    };
}

pub mod from_prove_settings {
    pub use larch_prove_settings::{CommandRefusal, Settings};
}

pub mod from_prove_settling {
    pub use larch_prove_settling::{end_at_once, open_first, settle};
}

pub mod from_rewrite {
    pub use larch_prove_settling::from_rewrite::RewriteRefusal;
}
