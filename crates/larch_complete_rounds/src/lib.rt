//! A round of completion with its lines: an equation that lines say → the rule that it makes, with a certificate.
#![tactic(auto)]

mod certified;
mod halt;
mod pairing;
mod rewriter;
mod settling;
mod task;

pub use certified::{CertifiedRule, certify};
pub use halt::Halt;
pub use pairing::push_new_pairs;
pub use rewriter::Rewriter;
pub use settling::settle;
pub use task::CompletionTask;
