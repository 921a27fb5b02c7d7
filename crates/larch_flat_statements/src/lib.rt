//! Statements in the order in which they came, each once, with the mark that says whether they are only assumed.
//!
//! What is hashed of a statement is found by recursion down its terms, with small frames and no memory.
#![tactic(auto)]

mod hashing;
mod key;
mod known;
mod marked;

pub use known::new_among;
pub use marked::MarkedStatements;

// Passed on to crates above, which then needn't list these crates.
pub mod from_shorthand {
    pub use larch_flat_meaning::from_shorthand::{
        ExpandRefusal, Expansion, expand, expand_operators,
    };
}

pub mod from_sorts_signature {
    pub use larch_flat_meaning::from_sorts_signature::Signature;
}

pub mod from_traits_items {
    pub use larch_flat_meaning::from_traits_items::{TraitRefusal, declare, state_items};
}
