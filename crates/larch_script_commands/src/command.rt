use larch_base::{Code, FactName, Sequence, Way};
use larch_raw::{RawEquation, RawOpRef, RawWord, RawWords};

/// A variable of a fact, and the term that takes its place.
#[derive(Drop)]
pub struct RawInstance {
    pub name: RawWord,
    pub term: RawEquation,
}

/// What an instance puts in the places of variables, in order.
pub type RawInstances = Sequence<RawInstance>;

/// What a line of a script commands. A term is an equation without a right side.
#[derive(Drop)]
pub enum CommandKind {
    /// `declare variables x, y: S`.
    Declare(RawWords, RawWord),
    /// `set rewriting-limit N`.
    Limit(u32),
    /// `set box-checking on`, or `off`.
    BoxChecking(bool),
    /// `register height F > G`.
    Height(RawOpRef, RawOpRef),
    /// `register status left-to-right F`.
    Status(Way, RawOpRef),
    /// `prove E`.
    Prove(RawEquation),
    /// `resume by cases T`.
    Cases(RawEquation),
    /// `resume by =>`.
    Implication,
    /// `resume by /\`.
    Conjunction,
    /// `resume by contradiction`.
    Contradiction,
    /// `resume by induction on x`.
    Induction(RawWord),
    /// `resume by partition`.
    Partition,
    /// `instantiate x by T, y by U in A1`.
    Instantiate(RawInstances, FactName),
    /// `critical-pairs A1 with A2`.
    CriticalPairs(FactName, FactName),
    /// `normalize A1`.
    Normalize(FactName),
    /// `qed`.
    Qed,
    /// A mark: true for `[]`, which says that a goal is proved, and false for `<>`, which says that one is opened.
    Mark(bool),
    /// A line that is no command, and why.
    Bad(Code),
}

/// A command, and the line on which it stands, from 1.
#[derive(Drop)]
pub struct RawCommand {
    pub line: u32,
    pub kind: CommandKind,
}

/// Commands in order.
pub type Commands = Sequence<RawCommand>;
