//! Coded terms of certificates, read by what a checker keeps of the lines before.
#![tactic(auto)]

mod decoding;
mod symbols;

pub use decoding::{decode, decode_equation, decode_variable};
pub use symbols::{find_operator, own_operator, symbol_of};
