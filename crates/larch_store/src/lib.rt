//! Terms whose subterms are shared: each different node is kept once, under a number.
#![tactic(auto)]

mod entries;
mod interning;
mod keeping;
mod key;
pub mod laws;
mod layer;
mod layers;
mod reading;
mod refusal;
mod shared;
mod store;
mod table;

pub use layers::{all_layers, share_layers};
pub use refusal::StoreRefusal;
pub use shared::{Shared, SharedList, SharedNode};
pub use store::Store;
