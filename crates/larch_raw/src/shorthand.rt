use crate::declared::{RawWord, RawWords};
use larch_base::Sequence;

/// A field with its sort.
#[derive(Debug, Drop)]
pub struct RawField {
    pub name: RawWord,
    pub sort: RawWord,
}

/// The fields of a tuple or a union, in order.
pub type RawFields = Sequence<RawField>;

/// A shorthand: the sort that it is about, and what makes its values.
#[derive(Debug, Drop)]
pub enum RawShorthand {
    /// These constants.
    Enumeration(RawWord, RawWords),
    /// A value of each of these fields together.
    Tuple(RawWord, RawFields),
    /// A value of one of these fields.
    Union(RawWord, RawFields),
}

/// The shorthands of a trait, in order.
pub type RawShorthands = Sequence<RawShorthand>;
