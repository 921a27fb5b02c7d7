//! What definitions of all streets share: steps that may be refused, one after the other, and names that are words.
//! There is no code.
#![tactic(auto)]
