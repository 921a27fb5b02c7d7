ghost use Rattle.std.specs.Prelude.{◌≡◌, ◌++◌, ◌∷◌, [], IfOk, OnOk};
ghost use Rattle.larch_term.specs.Tree.{forest_of};
ghost use Rattle.larch_prove_invariant.specs.Unopened.{is_among, operators_in, operators_in_all};
ghost use Rattle.larch_prove_invariant.specs.Unopened.{unopened_in, unopened_of};

use larch_base::{Memory, Sequence};
use larch_term::{Node, Operator, Operators, Term, Terms};
use std::alloc::Global;

// The constants of a block that a term has and whose boxes aren't open, in the order in which they occur first.
pub(crate) fn constants_to_open(
    alloc: Global,
    block: &[Operator],
    opened: &[Operator],
    term: &Term,
) -> Result<Operators, Memory>
    ensures { IfOk result (λ fs. fs ≡ unopened_in block.now opened.now term.now) }
{
    let mut found = Sequence::new(alloc);
    add_constants(block, opened, term, &mut found)?;
    Ok(found)
}

// Puts such constants of a term behind others, each one that isn't there. It goes down the term by recursion, at most
// 5,000 deep: a term of a proof has no more nodes.
#[cycle(add_constants)]
#[tactic(auto, using(larch_term::specs::Tree::nodes_all_is_sum, crate::proofs::ToOpen::unopened_on))]
fn add_constants(
    block: &[Operator],
    opened: &[Operator],
    term: &Term,
    found: &mut Operators,
) -> Result<(), Memory>
    ensures { OnOk result (found.new
        ≡ found.old ++ unopened_of block.now (opened.now ++ found.old) (operators_in term.now)) }
{
    match term.node() {
        Node::Var(_, _) => Ok(()),
        Node::App(operator, arguments) => {
            add_constant(block, opened, operator, found)?;
            add_all_constants(block, opened, arguments, found)
        }
    }
}

#[cycle(add_constants)]
#[tactic(auto, using(larch_term::specs::Tree::nodes_all_is_sum, crate::proofs::ToOpen::unopened_on))]
fn add_all_constants(
    block: &[Operator],
    opened: &[Operator],
    terms: &Terms,
    found: &mut Operators,
) -> Result<(), Memory>
    ensures { OnOk result (found.new
        ≡ found.old ++ unopened_of block.now (opened.now ++ found.old) (operators_in_all (forest_of terms.now))) }
{
    for term in terms.as_slice() {
        add_constants(block, opened, term, found)?;
    }
    Ok(())
}

// Puts an operator behind others, if it is such a constant and isn't there.
fn add_constant(
    block: &[Operator],
    opened: &[Operator],
    operator: &Operator,
    found: &mut Operators,
) -> Result<(), Memory>
    ensures { OnOk result (found.new
        ≡ found.old ++ unopened_of block.now (opened.now ++ found.old) (operator.now ∷ [])) }
{
    if is_among(block, operator)
        && !is_among(opened, operator)
        && !is_among(found.as_slice(), operator)
    {
        let copied = operator.copy()?;
        found.push(copied)?;
    }
    Ok(())
}

// Whether an operator is one of these.
fn is_among(operators: &[Operator], operator: &Operator) -> bool
    ensures { result ≡ is_among operators.now operator.now }
{
    operators.iter().any(|candidate| *operator == *candidate)
}
