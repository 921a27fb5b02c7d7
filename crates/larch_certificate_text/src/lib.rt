//! What the text of a certificate is: definitions and their laws, and the types that they speak of.
//!
//! Both versions are defined at once: whether lines are named by number or by distance, and whether parts have names,
//! is a parameter that three words look at.
#![tactic(auto)]

mod here;
pub mod laws;
mod machine;
mod rule_word;
mod stack;
mod text;

pub use here::Here;
pub use machine::{Frame, Machine};
pub use rule_word::RuleWord;
pub use stack::Stack;
pub use text::Text;

// Passed on to crates above, which then needn't list these crates.
pub mod from_certificate {
    pub use larch_certificate::{
        Binding, Bindings, BoxPart, BoxParts, Certificate, Coded, CodedEquation, CodedEquations,
        CodedTerms, CodedVar, CodedVars, Line, Numbers, Path, Symbol,
    };
}
