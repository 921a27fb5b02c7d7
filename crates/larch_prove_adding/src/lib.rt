//! The facts of a level with the lines that say them: how its goal gets its normal form, and how equations are added.
#![tactic(auto)]

mod adding;
mod beside;
mod deducing;
mod equation;
mod facts;
mod named;
mod normal;
mod orienting;
mod treating;

pub use beside::Instance;
pub use equation::SaidEquation;
pub use facts::Facts;
pub use normal::{LevelGoal, normal_goal};
pub use treating::Manner;

// Passed on to crates above, which then needn't list these crates.
pub mod from_derive_lines {
    pub use larch_rewrite::from_derive_lines::push_axiom;
}

pub mod from_prove_plans {
    pub use larch_prove_invariant::from_prove_plans::{
        Subgoal, free_name, generation_goal, partition_goal,
    };
}

pub mod from_rewrite {
    pub use larch_rewrite::RewriteRefusal;
}
