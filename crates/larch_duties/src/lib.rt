//! The duties of a trait: worked out, written and found.
//!
//! What is kept of them is small: the statements that are implied, and the operators and terms of each clause
//! `converts`. Copies and theories are made where they are wanted. Terms are gone down by recursion, as in the copying
//! of terms.
#![tactic(auto)]

mod among;
mod claims;
mod clause;
mod conversion;
mod finding;
mod implied;
mod known;
mod laws;
mod own;
mod printing;
mod standing;
mod theories;
mod trait_duties;
mod words;

pub use claims::{Claim, Claims, claims_in, find_claim, place_of, trait_claims};
pub use finding::find_duty;
pub use larch_base::Label;
pub use laws::{
    claims_are_in_words, claims_are_sound, own_claims_are_duties, what_is_reached_decides_claims,
};
pub use own::{OwnClaims, own_claims};
pub use printing::{list_trait, print_duties};
pub use trait_duties::{Duties, duties_of};
