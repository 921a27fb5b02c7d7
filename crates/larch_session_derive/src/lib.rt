//! The certificate of a duty that was replayed, over its own theory, with those of its lemmas in it; what is replied
//! where a derivation is asked for.
#![tactic(auto)]

mod by_files;
mod derivation;
mod parts;
mod reply;
mod serving;

pub use by_files::derive_on;
pub use derivation::derive_duty;
pub use reply::derivation_reply;
