//! What a checker of certificates keeps of the lines before, and what it finds there by numbers.
#![tactic(auto)]

mod context;
mod event;
mod happening;
pub mod laws;
mod past;
mod stated;

pub use context::Context;
pub use event::{EquatedList, KeptEvent, KnownBox};
pub use past::KeptHistory;
pub use stated::{Equated, Stated, copy_stated, intern_statement, same_equated, same_stated};
