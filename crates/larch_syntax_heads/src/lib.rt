//! Steps of the reader in the head of a trait: its name and formals, shorthands and references to traits.
//!
//! Each function takes a token in one state of the machine of `larch_grammar`, and answers what the machine does there.
#![tactic(auto)]

mod head;
mod outcome;
mod references;
mod shorthands;

pub use head::{
    after_formal, after_formals, after_head, after_name, at_start, begin_claim, need_trait,
};
pub use outcome::{Outcome, at_head, ends, outside, plainly, stops};
pub use references::{after_plain, after_rename, after_renamed, after_renaming, need_ref};
pub use shorthands::{
    after_constant, after_field, after_names, need_constant, need_constants, need_fields,
    need_further_name, need_name, need_names_sort, short_word,
};
