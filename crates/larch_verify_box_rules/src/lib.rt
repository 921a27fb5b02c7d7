//! What lines of certificates say by the results of closed boxes: variables for constants, cases and induction.
#![tactic(auto)]

mod cases;
mod fresh;
mod induct;
mod matching;
mod showing;

pub use cases::judge_cases;
pub use fresh::judge_fresh;
pub use induct::{Induction, judge_induct};

// Passed on to crates above, which then needn't list these crates.
pub mod from_verify_decoding {
    pub use larch_verify_decoding::decode_equation;
}
