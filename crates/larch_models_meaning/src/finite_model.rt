use larch_base::Sequence;
use larch_term::{Operator, Sort};

/// How many values a sort has: they are the numbers from 0 to the last.
#[derive(Drop)]
pub struct SortValues {
    pub sort: Sort,
    pub last: u32,
}

/// What an operator makes of arguments: a value for each list of them, the last argument running fastest.
#[derive(Drop)]
pub struct OperatorTable {
    pub operator: Operator,
    pub values: Sequence<u32>,
}

/// A finite model as data: the values of some sorts, and the tables of some operators. A sort that isn't there has the
/// value 0 alone.
#[derive(Drop)]
pub struct FiniteModel {
    pub sorts: Sequence<SortValues>,
    pub tables: Sequence<OperatorTable>,
}
