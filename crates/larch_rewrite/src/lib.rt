//! Rules and the normal forms of terms, each with a line that says that the term equals it.
#![tactic(auto)]

mod applying;
mod finishing;
mod kept;
pub mod laws;
mod layered_rules;
mod level;
mod machine;
mod named_rule;
mod named_rules;
mod refusal;
mod rules;
mod searching;
mod turning;

pub use kept::KeptForm;
pub use machine::Normal;
pub use named_rule::NamedRule;
pub use refusal::RewriteRefusal;
pub use rules::Rules;

// Passed on to crates above, which then needn't list these crates.
pub mod from_derive_lines {
    pub use larch_rewrite_step::from_derive_lines::{push_axiom, push_sym, push_trans};
}
