/// What a fact of a proof comes from.
#[derive(Clone, Copy, Debug, PartialEq, Eq)]
pub enum FactLetter {
    /// A statement of the theory: `A`.
    Axiom,
    /// An obligation that was proved before: `L`.
    Lemma,
    /// A hypothesis of a goal: `H`.
    Hypothesis,
    /// What a command adds: `D`.
    Derived,
}

/// The name of a fact: what it comes from, its number among those, and its part, from 1, since one equation may make
/// several facts. Scripts write the first part of the fourth axiom as `A4` or `A4.1`.
#[derive(Clone, Copy, Debug, PartialEq, Eq)]
pub struct FactName {
    /// What the fact comes from.
    pub letter: FactLetter,
    /// Its number among the facts that come from there.
    pub number: u32,
    /// Its part.
    pub part: u32,
}
