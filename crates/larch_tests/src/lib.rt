//! Tests that cross crates: whole calls of the program over streams in memory.
#![tactic(auto)]

#[cfg(test)]
mod calls;
#[cfg(test)]
mod files;
#[cfg(test)]
mod scripts;
#[cfg(test)]
mod streams;
