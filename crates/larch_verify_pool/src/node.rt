use crate::numbers::NodeNumbers;
use larch_base::Name;

/// A node: a variable with its name and sort, or the number of an operator with the numbers of its arguments.
#[derive(Drop, PartialEq, Eq, Hash)]
pub enum PoolNode {
    /// A variable: its name and sort.
    Var(Name, Name),
    /// The number of an operator with those of its arguments.
    App(u32, NodeNumbers),
}

/// What a pool keeps beside a node: whether its term is well sorted, and whether it has no variables.
#[derive(Clone, Copy, Drop)]
pub(crate) struct Marks {
    pub(crate) is_well_sorted: bool,
    pub(crate) is_ground: bool,
}
