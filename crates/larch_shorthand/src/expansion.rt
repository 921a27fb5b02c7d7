use larch_term::{Operators, Statements};

/// The operators that a shorthand stands for, and what is stated of them.
#[derive(Drop)]
pub struct Expansion {
    pub operators: Operators,
    pub statements: Statements,
}
