//! Completion: a theory's equations → rules, each with a certificate, and whether these decide the equations.
#![tactic(auto)]

mod completion;
mod equations;
mod rounds;
mod testing;
mod work;

pub use completion::{Completion, complete};
