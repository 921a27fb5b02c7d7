ghost use Rattle.std.specs.Prelude.{◌≡◌, false, IfSome, IfNone};
ghost use Rattle.larch_term.specs.Arguments.{has_two_arguments};
ghost use Rattle.larch_term.specs.Tree.{app, none, more, forest_of};

use crate::operator::Operator;
use crate::term::{Node, Term};

/// An operator with its two arguments.
#[derive(Drop)]
pub struct TwoArguments<'a> {
    pub operator: &'a Operator,
    pub left: &'a Term,
    pub right: &'a Term,
}

/// The operator of a term with two arguments, and these. `None` exactly of another term. It takes no memory.
pub fn two_arguments<'a>(term: &'a Term) -> Option<TwoArguments<'a>>
    ensures some { IfSome result
        (λ two. term.now ≡ app two.operator.now (more two.left.now (more two.right.now none))) }
    ensures none { IfNone result (has_two_arguments term.now ≡ false) }
{
    match &term.node {
        Node::Var(_, _) => None,
        Node::App(operator, arguments) => two_of(operator, arguments.as_slice()),
    }
}

// An operator with its arguments, if these are two.
fn two_of<'a>(operator: &'a Operator, arguments: &'a [Term]) -> Option<TwoArguments<'a>>
    ensures some { IfSome result (λ two. app operator.now (forest_of arguments.now)
        ≡ app two.operator.now (more two.left.now (more two.right.now none))) }
    ensures none { IfNone result (has_two_arguments (app operator.now (forest_of arguments.now)) ≡ false) }
{
    let [left, further @ ..] = arguments else {
        return None;
    };
    let [right, others @ ..] = further else {
        return None;
    };
    if let [_, ..] = others {
        return None;
    }
    Some(TwoArguments {
        operator,
        left,
        right,
    })
}
