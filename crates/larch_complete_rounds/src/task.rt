use larch_base::Sequence;
use larch_complete_pairs::SaidEquation;
use larch_order::Precedence;

/// What a completion works with: the precedence by which rules are oriented, the budget for the two sides of an
/// equation together, and the theory's equations with the lines that say them.
pub struct CompletionTask {
    pub precedence: Precedence,
    pub budget: u32,
    pub equations: Sequence<SaidEquation>,
}

// By a call, so that a proof takes it apart in one place alone.
impl Drop for CompletionTask {
    fn drop(self) {
        let CompletionTask {
            precedence: _precedence,
            budget: _budget,
            equations: _equations,
        } = self;
    }
}
