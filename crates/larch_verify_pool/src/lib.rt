//! Terms as numbered nodes, each kept once, and what is done with them by loops.
#![tactic(auto)]

mod exchanging;
mod freeing;
mod interning;
mod node;
mod numbers;
mod placing;
mod pool;
mod substitution;
mod symbol;

pub use freeing::free_constants;
pub use interning::{intern_operator, intern_term};
pub use node::PoolNode;
pub use numbers::NodeNumbers;
pub use placing::{at, replace_at};
pub use pool::Pool;
pub use substitution::{PoolBinding, are_bindings, is_variable, substitute};
pub use symbol::{PoolSymbol, SortList, SymbolName};
