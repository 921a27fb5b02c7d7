//! Questions about files: what is looked for in a folder, and what is answered.
#![tactic(auto)]

mod answer;
pub mod check;
pub mod completion;
pub mod derivation;
mod examples;
pub mod gather;
mod laws;
pub mod migrate;
pub mod model;
pub mod obligations;
mod report;
mod theory;
pub mod trim;
pub mod verify;

pub use answer::{Answer, answer_to, good_or_remains, report_answer, tell};
pub use examples::{
    a_trait_is_told, a_wrong_trait_is_told, certificates_are_migrated, certificates_are_told,
    certificates_are_trimmed, files_that_lack_are_told, models_are_told, rules_are_told,
};
pub use laws::{
    each_trait_has_one_line, what_is_completed_decides, what_is_derived_is_accepted,
    what_is_gathered_is_done, what_is_migrated_is_the_same, what_is_there_is_gathered,
    what_is_there_is_migrated,
};
