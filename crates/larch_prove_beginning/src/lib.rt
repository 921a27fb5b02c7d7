//! How a duty opens behind its preamble: the facts, the first goal with its hypotheses, and whether it is proved at
//! once.
#![tactic(auto)]

mod duty;
mod goal;
mod hypotheses;
mod level;
mod names;
mod opening;

pub use duty::{FirstDraft, Preamble, WholeDuty};
pub use opening::open_duty;

// Passed on to crates above, which then needn't list these crates.
pub mod from_prove_opening {
    pub use larch_prove_opening::Lemma;
}

pub mod from_prove_settings {
    pub use larch_prove_settings::{CommandRefusal, OrderedScope, Settings};
}
