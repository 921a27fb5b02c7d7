//! The facts with which a proof opens: a theory's equations and those of earlier lemmas, with the lines that say them.
#![tactic(auto)]

mod laws;
mod opening;
mod statements;

pub use laws::openings_go_by_facts;
pub use opening::{Lemma, Opening, open_facts};

// Passed on to crates above, which then needn't list these crates.
pub mod from_prove_adding {
    pub use larch_prove_adding::{Facts, LevelGoal, SaidEquation};
}

pub mod from_prove_plans {
    pub use larch_prove_adding::from_prove_plans::{
        Subgoal, free_name, generation_goal, partition_goal,
    };
}

pub mod from_rewrite {
    pub use larch_prove_adding::from_rewrite::RewriteRefusal;
}
