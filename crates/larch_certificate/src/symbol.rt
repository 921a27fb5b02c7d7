use larch_term::BuiltIn;

/// An operator as a certificate names it.
#[derive(Clone, Copy, Debug, PartialEq, Eq)]
pub enum Symbol {
    /// An operator of the theory, by its number, counted from 1.
    Own(u64),
    /// A constant of a box: the number of the box, and the constant's own, counted from 1.
    Constant(u64, u64),
    /// A built-in operator. Of which sort it is, its arguments say.
    BuiltIn(BuiltIn),
}
