//! Whether statements hold in a finite model, and whether all of a theory's do; the model that a text is.
#![tactic(auto)]

mod equation;
mod generated;
mod lists;
mod maker;
mod model_text;
mod operation;
mod partitioned;
mod parts;
mod program;
mod sort_line;
mod sorts;
mod table_line;
mod truth;

pub use model_text::{ModelRefusal, read_model};
pub use truth::{MAX_ASSIGNMENTS, ModelAnswer, check_model, fits, holds};

// Passed on to crates above, which then needn't list these crates.
pub mod from_soundness {
    pub use larch_soundness::laws;
}
