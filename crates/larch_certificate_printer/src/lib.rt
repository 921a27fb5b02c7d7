//! The text of a certificate.
#![tactic(auto)]

mod certificate;
mod line;
mod list;
mod number;
mod part;
mod term;

pub use certificate::{print_certificate, print_second};
pub use number::NumberKind;
