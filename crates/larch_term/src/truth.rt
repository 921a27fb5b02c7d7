ghost use Rattle.std.specs.Prelude.{◌≡◌};
ghost use Rattle.larch_term.specs.Truth.{is_true, is_truth};

use crate::operator::Operator;
use crate::term::{Node, Term};

/// Whether the term is the built-in constant true. It takes no memory.
#[tactic(auto, using(crate::proofs::TruthTest::not_truth))]
pub fn is_truth(term: &Term) -> bool
    ensures { result ≡ is_truth term.now }
{
    match &term.node {
        Node::App(operator, arguments) => arguments.items.is_empty() && is_true(operator),
        Node::Var(_, _) => false,
    }
}

fn is_true(operator: &Operator) -> bool
    ensures { result ≡ is_true operator.now }
{
    operator.name().bytes() == b"true".as_slice()
        && operator.domain().is_empty()
        && operator.range().bytes() == b"Bool".as_slice()
}
