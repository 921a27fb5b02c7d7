//! The reader of traits and terms: it takes one token at a time, with a stack of what waits for a tree, and answers
//! what the grammar of `larch_grammar` says, after that of Guttag and Horning's book Larch: Languages and Tools for
//! Formal Specification (1993).
#![tactic(auto)]

mod begin;
mod chains;
mod conversions;
mod forms;
mod hand;
mod implied;
mod items;
pub mod laws;
mod read;
mod refusal;
mod refused;
mod step;

pub use larch_raw::{
    ClauseKind, RawConversion, RawConversions, RawDecl, RawDecls, RawEquation, RawEquations,
    RawForm, RawForms, RawItem, RawItems, RawNode, RawOpRef, RawOpRefs, RawRight, RawSig, RawTerm,
    RawTerms, RawTrait, RawVar, RawVars, RawWord, RawWords,
};
pub use read::{read_reference, read_term, read_trait};
pub use refusal::SyntaxRefusal;
