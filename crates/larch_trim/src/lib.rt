//! A certificate without the lines that its end doesn't need.
#![tactic(auto)]

mod ends;
mod item;
mod line;
mod names;
mod needed;
mod numbers;
mod term;
mod trimming;

pub use trimming::trim;
