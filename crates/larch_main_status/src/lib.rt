//! How a call of the program ends: its status, the text that it writes last, and why it has none.
#![tactic(auto)]

mod halt;
mod say;
mod status;

pub use halt::Halt;
pub use say::say_at_end;
pub use status::Status;

// Passed on to crates above, which then needn't list these crates.
pub mod from_traits {
    pub use larch_traits::Files;
}
