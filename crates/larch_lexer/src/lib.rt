//! Tokens of trait files and of lines of scripts.
#![tactic(auto)]

mod laws;
mod lex;
mod names;
mod piece;
mod refusal;
mod token;
mod tokens;

pub use laws::{one_lexing, tokens_in_order};
pub use lex::{lex_lp, lex_lsl};
pub use refusal::LexRefusal;
pub use token::{Kind, Token};
pub use tokens::Tokens;
