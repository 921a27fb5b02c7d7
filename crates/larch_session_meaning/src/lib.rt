//! What a report says of files of traits and scripts, defined, with worked examples. What stands here computes, and has
//! no code.
#![tactic(auto)]

mod examples;

pub use examples::{
    a_trait_with_a_script, blocks_are_named_by_duties, earlier_duties_are_lemmas,
    limits_are_set_in_preambles, scripts_without_a_trait, what_is_wrong_has_no_script,
};

// Passed on to crates above, which then needn't list these crates.
pub mod from_duties {
    pub use larch_duties::{
        Claim, Claims, Duties, OwnClaims, duties_of, find_duty, list_trait, own_claims, place_of,
        trait_claims,
    };
}

pub mod from_flat {
    pub use larch_traits::from_flat::{FlatTraits, flatten};
}

pub mod from_flat_sources {
    pub use larch_traits::from_flat_sources::Sources;
}

pub mod from_script {
    pub use larch_script::read_script;
}

pub mod from_traits {
    pub use larch_traits::{Files, TraitRefusal, read_files};
}
