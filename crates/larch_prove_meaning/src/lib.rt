//! The prover, defined: what a block of a script comes to. What stands here computes, and has no code.
#![tactic(auto)]

mod laws;
mod names;
mod words;

pub use laws::{
    adding_comes_to_an_end, adding_keeps_sorts, blocks_go_in_parts, constants_are_new,
    equal_commands_do_the_same, new_names_are_new, nothing_is_redone, plans_keep_sorts,
    plans_make_new_constants, proofs_stay_well_sorted, redoing_is_bounded,
    what_is_the_same_is_equal,
};
pub use names::{names_of_facts_differ, numbers_of_lemmas_differ};
pub use words::{commands_read_words, scopes_stay_in_words};

// Passed on to crates above, which then needn't list these crates.
pub mod from_order {
    pub use larch_order::Precedence;
}

pub mod from_pairs {
    pub use larch_pairs_critical::from_pairs::{Entries, substitution_of};
}
