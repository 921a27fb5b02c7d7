use larch_prove_levels::Around;
use larch_term::{Statement, Theory};

/// What a proof is of, and how its equations are added.
#[derive(Drop)]
pub struct Proving<'a> {
    /// The theory, with what the lemmas state behind its own statements.
    pub theory: &'a Theory,
    pub statement: &'a Statement,
    pub around: Around<'a>,
}
