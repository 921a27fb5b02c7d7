use crate::operator::{Operator, Sort};
use crate::term::Term;
use larch_base::Sequence;

/// Several operators, in order.
pub type Operators = Sequence<Operator>;

/// What is stated of a theory.
#[derive(Drop)]
pub enum Statement {
    /// Both sides are equal.
    Equation(Term, Term),
    /// Each value of the sort is made by these operators.
    Generated(Sort, Operators),
    /// Different values of the sort are told apart by these operators.
    Partitioned(Sort, Operators),
}

/// Several statements, in order.
pub type Statements = Sequence<Statement>;

/// Operators with statements over them and the built-in ones.
#[derive(Drop)]
pub struct Theory {
    pub operators: Operators,
    pub statements: Statements,
}
