//! Sessions: files of traits and scripts, which are put and dropped, the report on them as they stand, and what is
//! derived of the duties that it calls proved.
#![tactic(auto)]

mod session;

pub use session::{PutRefusal, Session};
