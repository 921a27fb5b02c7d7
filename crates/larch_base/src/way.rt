/// How an operator compares the lists of its arguments in the path ordering: its status.
#[derive(Clone, Copy, Debug, PartialEq, Eq)]
pub enum Way {
    /// The first arguments that differ decide.
    LeftToRight,
    /// The last arguments that differ decide.
    RightToLeft,
    /// The arguments are compared as multisets.
    Multiset,
}
