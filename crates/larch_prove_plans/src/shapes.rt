ghost use Rattle.std.specs.Prelude.{◌≡◌, Bool, option_map, IfOk};
ghost use Rattle.larch_prove_plans.specs.Shapes.{pair_if, parts_of};
ghost use Rattle.larch_prove_meaning.specs.Plans.{two_arguments};
ghost use Rattle.larch_term.specs.BuiltIn.{is_built_in_as};
ghost use Rattle.larch_term.specs.Equality.{same_operator};
ghost use Rattle.larch_term.specs.Operator.{PlainOperator};
ghost use Rattle.larch_term.specs.Tree.{app, forest_of};

use larch_base::Memory;
use larch_term::{BuiltIn, Node, Operator, Term};
use std::alloc::Global;

/// An operator with two arguments.
#[derive(Drop)]
pub struct BinaryTerm<'a> {
    pub operator: &'a Operator,
    pub left: &'a Term,
    pub right: &'a Term,
}

// The arguments of an operator with two, where it is this one.
pub(crate) fn pair_by<'a>(term: &'a Term, operator: &Operator) -> Option<BinaryTerm<'a>>
    ensures { option_map parts_of result ≡ two_arguments (same_operator operator.now) term.now }
{
    let pair = pair_in(term)?;
    if *operator != *pair.operator {
        return None;
    }
    Some(pair)
}

/// The sides of an equality. None of another term.
pub fn equality_in<'a>(alloc: Global, term: &'a Term) -> Result<Option<BinaryTerm<'a>>, Memory>
    ensures { IfOk result (λ p. option_map parts_of p
        ≡ two_arguments (λ f. is_built_in_as f BuiltIn.Equal) term.now) }
{
    let Some(pair) = pair_in(term) else {
        return Ok(None);
    };
    if !is_equality(alloc, pair.operator)? {
        return Ok(None);
    }
    Ok(Some(pair))
}

// Whether an operator is the equality at some sort.
fn is_equality(alloc: Global, operator: &Operator) -> Result<bool, Memory>
    ensures { IfOk result (λ yes. yes ≡ is_built_in_as operator.now BuiltIn.Equal) }
{
    let Some(sort) = operator.domain().last() else {
        return Ok(false);
    };
    let equality = BuiltIn::Equal.operator(alloc, sort)?;
    Ok(*operator == equality)
}

// What a term is, if it is an operator with two arguments.
fn pair_in<'a>(term: &'a Term) -> Option<BinaryTerm<'a>>
    ensures { (test : PlainOperator → Bool) → two_arguments test term.now ≡ pair_if test result }
{
    match term.node() {
        Node::Var(_, _) => None,
        Node::App(operator, arguments) => pair_of(operator, arguments.as_slice()),
    }
}

fn pair_of<'a>(operator: &'a Operator, arguments: &'a [Term]) -> Option<BinaryTerm<'a>>
    ensures { (test : PlainOperator → Bool)
        → two_arguments test (app operator.now (forest_of arguments.now)) ≡ pair_if test result }
{
    let [left, further @ ..] = arguments else {
        return None;
    };
    let [right, others @ ..] = further else {
        return None;
    };
    if let [_, ..] = others {
        return None;
    }
    Some(BinaryTerm {
        operator,
        left,
        right,
    })
}
