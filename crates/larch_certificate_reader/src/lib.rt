//! The certificate that a text is, or the first line of the text that is outside the grammar.
#![tactic(auto)]

mod certificate;
mod count;
mod equation;
mod leaf;
mod line;
mod list;
mod machine;
mod named;
mod names;
mod parts;
mod rule;

pub use certificate::{FormRefusal, Versioned, read_certificate, read_either};
pub use list::Counted;
