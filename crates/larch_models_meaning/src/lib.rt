//! Finite models of theories: interpretations, what holds in one, and whether it does as a computed truth value;
//! models as data and as texts, and the interpretations that they stand for. Definitions, and small interpretations in
//! which they are tried; no function here does anything.
#![tactic(auto)]

pub mod computed;
pub mod examples;
mod finite_model;
pub mod texts;

pub use finite_model::{FiniteModel, OperatorTable, SortValues};
