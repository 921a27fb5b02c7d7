//! What the words of the command line ask for.
#![tactic(auto)]

mod call;
mod command_line;
mod evidence;
mod evidence_name;
mod files;
mod laws;
mod limited;
mod options;

pub use call::{Call, DutyName, FileNames, Generation, Question, Trial, Verification, read_words};
pub use evidence_name::EvidenceName;
pub use laws::{calls_name_files, certificates_are_named, generations_are_small, models_are_named};
pub use options::{MAX_SEED, MAX_SIZE};
