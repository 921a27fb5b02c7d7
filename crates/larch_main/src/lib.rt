//! The program's one call: words and streams in, a report and a status out.
#![tactic(auto)]

mod derive;
mod generate;
mod laws;
mod replay;
mod running;

pub use larch_main_files::{
    a_trait_is_told, a_wrong_trait_is_told, certificates_are_migrated, certificates_are_told,
    certificates_are_trimmed, each_trait_has_one_line, files_that_lack_are_told, models_are_told,
    rules_are_told, what_is_completed_decides, what_is_derived_is_accepted,
    what_is_gathered_is_done, what_is_migrated_is_the_same, what_is_there_is_gathered,
    what_is_there_is_migrated,
};
pub use larch_main_status::Status;
pub use laws::{
    what_is_trimmed_is_accepted, what_is_verified_is_derivable, what_is_verified_never_fails,
};
pub use running::run;
