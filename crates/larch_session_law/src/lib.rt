//! What reports call proved is derivable. Laws on the definitions of `larch_session_meaning` and `larch_prove_meaning`;
//! no function here does anything.
#![tactic(auto)]

mod laws;

pub use laws::{
    claims_can_be_replayed, lemmas_can_be_used, what_is_begun_has_its_lemmas,
    what_is_certified_is_derivable,
};

// Passed on to crates above, which then needn't list these crates.
pub mod from_duties {
    pub use larch_session_meaning::from_duties::{Claims, place_of, trait_claims};
}

pub mod from_flat {
    pub use larch_session_meaning::from_flat::{FlatTraits, flatten};
}

pub mod from_flat_sources {
    pub use larch_session_meaning::from_flat_sources::Sources;
}

pub mod from_script {
    pub use larch_session_meaning::from_script::read_script;
}

pub mod from_traits {
    pub use larch_session_meaning::from_traits::{Files, TraitRefusal, read_files};
}
