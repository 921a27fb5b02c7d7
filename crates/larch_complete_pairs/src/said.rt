use larch_pairs_critical::Rule;
use larch_term::Term;

/// An equation, and the line that says it.
#[derive(Drop)]
pub struct SaidEquation {
    pub left: Term,
    pub right: Term,
    pub line: u64,
}

/// A rule, and the line that says its equation.
#[derive(Drop)]
pub struct SaidRule {
    pub rule: Rule,
    pub line: u64,
}
