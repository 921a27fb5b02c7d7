use crate::declared::{RawForm, RawSig, RawWord};
use larch_base::Sequence;

/// What a trait that is referred to gets in place of one of its names.
#[derive(Debug, Drop)]
pub enum RawActual {
    /// In place of the formal at its place.
    Plain(RawForm),
    /// This name in place of the second one: of the operator with this signature where there is one.
    Replace(RawForm, RawForm, Option<RawSig>),
}

/// The actuals of a reference, in order.
pub type RawActuals = Sequence<RawActual>;

/// The name of a trait, with what it gets in place of its own names.
#[derive(Debug, Drop)]
pub struct RawRef {
    pub name: RawWord,
    pub actuals: RawActuals,
}

/// The references of an implied part, in order.
pub type RawRefs = Sequence<RawRef>;

/// A trait that is referred to, and whether it is assumed or included.
#[derive(Debug, Drop)]
pub struct RawReference {
    pub assumed: bool,
    pub target: RawRef,
}

/// The references of a trait, in order.
pub type RawReferences = Sequence<RawReference>;
