//! What commands of a proof can name, and what they set: variables in scope, operators, the precedence and the
//! rewriting limit.
#![tactic(auto)]

mod changing;
mod constants;
mod declaring;
mod reading;
mod references;
mod refusal;
mod registering;
mod scope;
mod settings;

pub use reading::ReadSides;
pub use refusal::CommandRefusal;
pub use scope::OrderedScope;
pub use settings::Settings;
