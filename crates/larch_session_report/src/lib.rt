//! The report on files of traits and scripts as they stand.
#![tactic(auto)]

mod report;

pub use report::{Report, report_on};

// Passed on to crates above, which then needn't list these crates.
pub mod from_traits {
    pub use larch_session_replay::from_traits::Files;
}
