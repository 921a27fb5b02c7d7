//! What a report keeps of each duty for the next one: what it was replayed by, and the states on the way. Where only
//! the block differs, a report goes on from them.
#![tactic(auto)]

mod alike;
mod base;
mod duty;
mod kept;
mod lemmas;
mod replaying;
mod trails;

pub use base::Base;
pub use kept::Replaying;
pub use replaying::replay_duties;
