use larch_base::{Name, Sequence};
use larch_term::{Operators, Statements, Term};

/// How a goal is to be proved.
pub enum Method {
    /// By cases on whether a formula is true.
    Cases(Term),
    /// An implication: its premise is supposed.
    Implication,
    /// A conjunction: each conjunct by itself.
    Conjunction,
    /// By contradiction: the goal is supposed to be false.
    Contradiction,
    /// By induction on the first variable with this name.
    Induction(Name),
    /// An equality: what observers show of both sides.
    Partition,
}

// By a call, so that a proof takes a method apart in one place alone.
impl Drop for Method {
    fn drop(self) {
        match self {
            Method::Cases(_it) => {}
            Method::Implication => {}
            Method::Conjunction => {}
            Method::Contradiction => {}
            Method::Induction(_it) => {}
            Method::Partition => {}
        }
    }
}

/// A part of what is to be proved: its own constants, what is supposed, and its goal.
pub struct Subgoal {
    pub constants: Operators,
    /// Equations.
    pub hypotheses: Statements,
    pub goal: Term,
}

// By a call, so that a proof takes a subgoal apart in one place alone.
impl Drop for Subgoal {
    fn drop(self) {
        let Subgoal {
            constants: _constants,
            hypotheses: _hypotheses,
            goal: _goal,
        } = self;
    }
}

/// Several subgoals, in order.
pub type Subgoals = Sequence<Subgoal>;

/// What a method makes of a goal: the constants that all subgoals share, and the subgoals.
pub struct Plan {
    pub constants: Operators,
    pub subgoals: Subgoals,
}

// By a call, so that a proof takes a plan apart in one place alone.
impl Drop for Plan {
    fn drop(self) {
        let Plan {
            constants: _constants,
            subgoals: _subgoals,
        } = self;
    }
}
