//! The commands that resume a proof by a method: what the method makes of the current goal, and what that leads to.
#![tactic(auto)]

mod beginning;
mod cases;
mod commands;
mod planning;
mod resuming;

pub use commands::resume_by;

// Passed on to crates above, which then needn't list these crates.
pub mod from_prove_draft {
    pub use larch_prove_work::from_prove_draft::Draft;
}

pub mod from_prove_levels {
    pub use larch_prove_work::from_prove_levels::Level;
}

pub mod from_prove_work {
    pub use larch_prove_work::{Claim, Work, command_refusal, prove};
}

pub mod from_rewrite {
    pub use larch_prove_work::from_rewrite::RewriteRefusal;
}
