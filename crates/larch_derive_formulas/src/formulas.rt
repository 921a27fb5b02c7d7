ghost use Rattle.std.specs.Prelude.{◌≡◌, IfOk};
ghost use Rattle.larch_derive_lines.specs.CalculusFormula.{equivalence, formula, apply_two};
ghost use Rattle.larch_derive_lines.specs.DerivePredicates.{Extends, HasEquation, Known};
ghost use Rattle.larch_derive_lines.specs.DeriveBuilderBuilder.{Builder as Built};
ghost use Rattle.larch_derive_formulas.specs.Formulas.{equation_formula, equating};
ghost use Rattle.larch_derive_formulas.specs.Instances.{IsInstance};
ghost use Rattle.larch_term.specs.Tree.{Tree};
ghost use Rattle.larch_term.specs.Truth.{truth};

use crate::instances::{Instance, of_truths, of_values, push_change, push_instance};
use larch_base::Memory;
use larch_derive_lines::from_derive::Builder;
use larch_derive_lines::{push_equal, push_sym, push_trans};
use larch_term::{Term, is_truth, sort_of};
use std::alloc::Global;

// That a term is equivalent to itself, that it is equal to itself, and that an equality of truth values is their
// equivalence.
const ITS_OWN_EQUIVALENT: u64 = 23;

const ITS_OWN_EQUAL: u64 = 24;

const EQUALITY_OF_TRUTH_VALUES: u64 = 25;

/// A line that says that the formula of an equation is true, from a line that says the equation. A refused line may
/// leave lines behind, none of them bad.
#[tactic(auto, using(larch_derive::proofs::Growth::extends_same, crate::proofs::Truths::formula_of_right, crate::proofs::Truths::formula_of_left, crate::proofs::Truths::formula_of_both))]
pub fn push_formula(
    alloc: Global,
    builder: &mut Builder,
    left: &Term,
    right: &Term,
    line: u64,
) -> Result<u64, Memory>
    ensures says { IfOk result (λ n. HasEquation builder.old line left.now right.now
        → HasEquation builder.new n (formula left.now right.now) truth) }
    ensures extends { HasEquation builder.old line left.now right.now → Extends builder.old builder.new }
{
    if is_truth(right) {
        return Ok(line);
    }
    if is_truth(left) {
        let number = push_sym(builder, line)?;
        return Ok(number);
    }
    let number = push_equality(alloc, builder, left, line)?;
    Ok(number)
}

/// A line that says that the equality of both sides of an equation is true, or at Bool their equivalence, also where
/// one of them is true; from a line that says the equation. It is the rule of an equation that isn't oriented. A
/// refused line may leave lines behind, none of them bad.
#[tactic(auto, using(larch_derive::proofs::Growth::extends_same))]
pub fn push_equality(
    alloc: Global,
    builder: &mut Builder,
    left: &Term,
    line: u64,
) -> Result<u64, Memory>
    ensures says { IfOk result (λ n. (r : Tree) → HasEquation builder.old line left.now r
        → HasEquation builder.new n (equation_formula left.now r) truth) }
    ensures extends { (r : Tree) → HasEquation builder.old line left.now r → Extends builder.old builder.new }
{
    let itself = equal_to_itself(alloc, left)?;
    let changed = push_change(alloc, builder, itself, 2, line)?;
    let number = push_sym(builder, changed)?;
    Ok(number)
}

// The row that says that a term is equal to itself, or at Bool equivalent.
#[tactic(auto, using(crate::proofs::Truths::itself_equivalent, crate::proofs::Truths::itself_equal))]
fn equal_to_itself(alloc: Global, term: &Term) -> Result<Instance, Memory>
    ensures { IfOk result (λ i. (b : Built) → Known b term.now
        → IsInstance b i (apply_two (equating term.now) term.now term.now) truth) }
{
    let sort = sort_of(term);
    if sort.bytes() == b"Bool".as_slice() {
        let row = of_truths(alloc, ITS_OWN_EQUIVALENT, term, term)?;
        return Ok(row);
    }
    let row = of_values(alloc, ITS_OWN_EQUAL, sort, term, term)?;
    Ok(row)
}

/// A line that says an equation, from a line that says that its formula is true. A refused line may leave lines behind,
/// none of them bad.
#[tactic(auto, using(larch_derive::proofs::Growth::extends_same, crate::proofs::Truths::right_from_formula, crate::proofs::Truths::left_from_formula))]
pub fn push_equation(
    alloc: Global,
    builder: &mut Builder,
    left: &Term,
    right: &Term,
    line: u64,
) -> Result<u64, Memory>
    ensures says { IfOk result (λ n. HasEquation builder.old line (formula left.now right.now) truth
        → HasEquation builder.new n left.now right.now) }
    ensures extends { HasEquation builder.old line (formula left.now right.now) truth
        → Extends builder.old builder.new }
{
    if is_truth(right) {
        return Ok(line);
    }
    if is_truth(left) {
        let number = push_sym(builder, line)?;
        return Ok(number);
    }
    let number = push_sides(alloc, builder, left, right, line)?;
    Ok(number)
}

// A line that says an equation, from one that says that both sides are equal, or at Bool equivalent.
#[tactic(auto, using(larch_derive::proofs::Growth::extends_same))]
fn push_sides(
    alloc: Global,
    builder: &mut Builder,
    left: &Term,
    right: &Term,
    line: u64,
) -> Result<u64, Memory>
    ensures says { IfOk result (λ n.
        HasEquation builder.old line (apply_two (equating left.now) left.now right.now) truth
        → HasEquation builder.new n left.now right.now) }
    ensures extends { HasEquation builder.old line (apply_two (equating left.now) left.now right.now) truth
        → Extends builder.old builder.new }
{
    if sort_of(left).bytes() == b"Bool".as_slice() {
        let number = push_equivalent(alloc, builder, left, right, line)?;
        return Ok(number);
    }
    let number = push_equal(builder, line)?;
    Ok(number)
}

/// A line that says that two truth values are equal, from a line that says that they are equivalent. A refused line may
/// leave lines behind, none of them bad.
#[tactic(auto, using(larch_derive::proofs::Growth::extends_same))]
pub fn push_equivalent(
    alloc: Global,
    builder: &mut Builder,
    left: &Term,
    right: &Term,
    line: u64,
) -> Result<u64, Memory>
    ensures says { IfOk result (λ n. HasEquation builder.old line (equivalence left.now right.now) truth
        → HasEquation builder.new n left.now right.now) }
    ensures extends { HasEquation builder.old line (equivalence left.now right.now) truth
        → Extends builder.old builder.new }
{
    let row = of_truths(alloc, EQUALITY_OF_TRUTH_VALUES, left, right)?;
    let equality = push_instance(alloc, builder, row)?;
    let truth = push_trans(alloc, builder, equality, line)?;
    let number = push_equal(builder, truth)?;
    Ok(number)
}
