use larch_base::Sequence;
use larch_complete_pairs::SaidEquation;
use larch_complete_rounds::{CertifiedRule, Rewriter};
use std::collections::VecDeque;

// How far a completion has come: what rewrites by the rules so far, these with their certificates, and the equations
// that wait.
#[derive(Drop)]
pub(crate) struct Work {
    pub(crate) rewriter: Rewriter,
    pub(crate) rules: Sequence<CertifiedRule>,
    pub(crate) waiting: VecDeque<SaidEquation>,
}
