//! One application of a rule, with its line: what the rule makes of a term, and a line that says that both are equal.
#![tactic(auto)]

mod applying;
mod encoding;
mod exchanging;
mod making;
mod refusal;
mod writing;

pub use applying::{Applied, apply_match, push_reason};
pub use encoding::{Encoding, Encodings};
pub use exchanging::push_exchanged;
pub use refusal::ApplyRefusal;
pub use writing::push_shared_refl;

// Passed on to crates above, which then needn't list these crates.
pub mod from_derive_lines {
    pub use larch_derive_lines::{push_argument, push_axiom, push_further, push_sym, push_trans};
}

pub mod from_rewrite_match {
    pub use larch_rewrite_match::{
        Match, Reason, RewriteRule, RowTables, RuleTable, SharedRule, first_in_table, first_match,
    };
}
