//! Traits, equations and terms as they are written: what the grammar reads and the checks above it admit.
//!
//! A raw term has a node for each head token, so that of an equation within its limits is at most 5,000 deep.
#![tactic(auto)]

mod declared;
mod equation;
mod reference;
mod shorthand;
mod term;

pub use declared::{
    RawDecl, RawDecls, RawForm, RawForms, RawOpRef, RawOpRefs, RawSig, RawWord, RawWords,
};
pub use equation::{
    ClauseKind, RawConversion, RawConversions, RawEquation, RawEquations, RawItem, RawItems,
    RawRight, RawTrait, RawVar, RawVars,
};
pub use reference::{RawActual, RawActuals, RawRef, RawReference, RawReferences, RawRefs};
pub use shorthand::{RawField, RawFields, RawShorthand, RawShorthands};
pub use term::{RawNode, RawTerm, RawTerms};
