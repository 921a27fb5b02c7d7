use larch_base::Sequence;
use larch_term::{Operator, Sort};

/// A sort with the new one in its place.
#[derive(Drop)]
pub struct SortPair {
    pub old: Sort,
    pub new: Sort,
}

/// An operator with the new one in its place.
#[derive(Drop)]
pub struct OperatorPair {
    pub old: Operator,
    pub new: Operator,
}

/// Several sorts with new ones, in order.
pub type SortPairs = Sequence<SortPair>;

/// Several operators with new ones, in order.
pub type OperatorPairs = Sequence<OperatorPair>;

/// The new sort of each sort that is named, and the new operator of each operator that is named. Of several pairs for
/// one word the first counts.
#[derive(Drop)]
pub struct Renaming {
    pub sorts: SortPairs,
    pub operators: OperatorPairs,
}
