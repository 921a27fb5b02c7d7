use larch_prove_opening::Lemma;
use larch_prove_settings::OrderedScope;
use larch_prove_settling::from_prove_draft::Draft;
use larch_term::{Operators, Statement, Theory};

/// A duty, with all that its proof may use.
#[derive(Drop)]
pub struct WholeDuty<'a> {
    pub theory: &'a Theory,
    /// What was proved earlier.
    pub lemmas: &'a [Lemma],
    /// The theory, with what the lemmas state behind its own statements.
    pub whole: &'a Theory,
    pub statement: &'a Statement,
}

/// What a preamble leaves, beside the precedence.
#[derive(Drop)]
pub struct Preamble<'a> {
    pub scope: &'a OrderedScope,
    /// How many applications of rules an adding or a normal form may take.
    pub limit: u32,
    /// Whether boxes are checked.
    pub checking: bool,
}

/// A proof that was opened: its draft, the constants that were made for its goal, and the variables in scope.
#[derive(Drop)]
pub struct FirstDraft {
    pub draft: Draft,
    pub constants: Operators,
    pub scope: OrderedScope,
}
