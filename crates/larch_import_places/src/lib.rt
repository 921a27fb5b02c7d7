//! Where a theory has what another one has, by new names.
#![tactic(auto)]

mod finding;
mod named_sorts;
mod places;

pub use finding::find_places;
