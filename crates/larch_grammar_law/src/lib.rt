//! Where a text is refused: the marks of tokens, what they count, and the general part of the law that a machine
//! which takes one token at a time refuses exactly where its grammar says.
#![tactic(auto)]

mod mark;

pub use mark::{Flaw, Mark, admit};
