//! The builder through which proofs are written, line by line.
#![tactic(auto)]

mod builder;
mod coding;
mod copying;
pub mod laws;
mod open_box;
mod shared_list;
mod shared_theory;
mod small;

pub use builder::Builder;
pub use open_box::{OpenBox, OpenBoxes};
pub use shared_list::ChunkedList;

// Passed on to crates above, which then needn't list these crates.
pub mod from_certificate {
    pub use larch_certificate_text::from_certificate::{Binding, Bindings, Line, Path};
}
