//! Certificates as data: terms of any depth, the lines that rules write, and lists of them.
//!
//! Whatever a certificate says may be wrong: nothing here says that a line is one that a checker takes.
#![tactic(auto)]

mod coded;
pub mod laws;
mod line;
mod symbol;

pub use coded::{Coded, CodedNode, CodedTerms};
pub use line::{
    Binding, Bindings, BoxPart, BoxParts, Certificate, CodedEquation, CodedEquations, CodedVar,
    CodedVars, Line, Numbers, Path,
};
pub use symbol::Symbol;

// Passed on to crates above, which then needn't list these crates.
pub mod from_base {
    pub use larch_term::from_base::{Bytes, Memory, Sequence};
}
