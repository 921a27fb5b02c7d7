//! The commands on facts: a fact's normal form, the critical pairs of two facts, and instances of a fact.
#![tactic(auto)]

mod boxes;
mod derivation;
mod entries;
mod instance;
mod instantiation;
mod named;
mod normal;
mod pairs;

pub use instantiation::instantiate;
pub use normal::normalize;
pub use pairs::pair_facts;
