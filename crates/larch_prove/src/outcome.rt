use larch_base::Code;
use larch_term::Term;

/// Where a block is refused: at a command of the preamble, at its opening, or at a command, these being counted from 1.
#[derive(Clone, Copy, Debug, PartialEq, Eq)]
pub enum Place {
    Preamble(u32),
    Opening,
    Command(u32),
}

/// What a block has come to.
#[derive(Drop)]
pub enum Outcome {
    Proved,
    /// So many goals are open, and this is the current one.
    Suspended { goals: u32, goal: Term },
    Refused { place: Place, code: Code },
}
