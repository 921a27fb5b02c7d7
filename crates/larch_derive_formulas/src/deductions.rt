ghost use Rattle.std.specs.Prelude.{◌≡◌, ◌+◌, ◌++◌, ◌∷◌, List, length, IfOk};
ghost use Rattle.larch_derive_lines.specs.CalculusFormula.{conjunction, disjunction, falsity, implication, negation};
ghost use Rattle.larch_derive_lines.specs.DerivePredicates.{Extends, HasEquation};
ghost use Rattle.larch_derive_formulas.specs.Instances.{IsInstance, of_truths};
ghost use Rattle.larch_term.specs.Operator.{PlainOperator};
ghost use Rattle.larch_term.specs.Tree.{Tree, app, forest_of};
ghost use Rattle.larch_term.specs.Truth.{truth};

use crate::instances::{Places, of_truths, push_reach};
use larch_base::Memory;
use larch_derive_lines::from_derive::Builder;
use larch_derive_lines::push_sym;
use larch_term::Term;
use std::alloc::Global;

// How a consequence is shown: by a row that says that a formula is true; by the argument, counted from 1, whose value a
// line says; and by a row that says what the formula then is.
#[derive(Clone, Copy)]
pub(crate) struct Step {
    pub(crate) row: u64,
    pub(crate) argument: u64,
    pub(crate) further: u64,
}

const LEFT_OF_CONJUNCTION: Step = Step {
    row: 35,
    argument: 1,
    further: 14,
};

const RIGHT_OF_CONJUNCTION: Step = Step {
    row: 36,
    argument: 1,
    further: 14,
};

const LEFT_OF_DISJUNCTION: Step = Step {
    row: 37,
    argument: 2,
    further: 17,
};

const RIGHT_OF_DISJUNCTION: Step = Step {
    row: 38,
    argument: 2,
    further: 17,
};

const PREMISE: Step = Step {
    row: 39,
    argument: 1,
    further: 11,
};

const CONCLUSION: Step = Step {
    row: 40,
    argument: 2,
    further: 17,
};

// The negation of true, the negation of false, and that of a negation.
const NOT_TRUE: u64 = 1;

const NOT_FALSE: u64 = 2;

const NOT_NOT: u64 = 3;

/// The lines of two consequences.
#[derive(Clone, Copy, Debug, PartialEq, Eq)]
pub struct BothLines {
    pub first: u64,
    pub second: u64,
}

/// Lines that say that both conjuncts are true, from a line that says that their conjunction is. A refused call may
/// leave lines behind, none of them bad.
#[tactic(auto, using(larch_derive::proofs::Growth::extends_same))]
pub fn push_conjuncts(
    alloc: Global,
    builder: &mut Builder,
    left: &Term,
    right: &Term,
    line: u64,
) -> Result<BothLines, Memory>
    ensures first { IfOk result (λ ns. HasEquation builder.old line (conjunction left.now right.now) truth
        → HasEquation builder.new ns.first left.now truth) }
    ensures second { IfOk result (λ ns. HasEquation builder.old line (conjunction left.now right.now) truth
        → HasEquation builder.new ns.second right.now truth) }
    ensures extends { HasEquation builder.old line (conjunction left.now right.now) truth
        → Extends builder.old builder.new }
{
    let places = Places {
        first: left,
        second: right,
    };
    let first = push_affirmed(alloc, builder, LEFT_OF_CONJUNCTION, &places, left, line)?;
    let second = push_affirmed(alloc, builder, RIGHT_OF_CONJUNCTION, &places, right, line)?;
    Ok(BothLines { first, second })
}

/// Lines that say that both disjuncts are false, from a line that says that their disjunction is. A refused call may
/// leave lines behind, none of them bad.
#[tactic(auto, using(larch_derive::proofs::Growth::extends_same))]
pub fn push_disjuncts(
    alloc: Global,
    builder: &mut Builder,
    left: &Term,
    right: &Term,
    line: u64,
) -> Result<BothLines, Memory>
    ensures first { IfOk result (λ ns. HasEquation builder.old line (disjunction left.now right.now) falsity
        → HasEquation builder.new ns.first left.now falsity) }
    ensures second { IfOk result (λ ns. HasEquation builder.old line (disjunction left.now right.now) falsity
        → HasEquation builder.new ns.second right.now falsity) }
    ensures extends { HasEquation builder.old line (disjunction left.now right.now) falsity
        → Extends builder.old builder.new }
{
    let places = Places {
        first: left,
        second: right,
    };
    let first = push_denied(alloc, builder, LEFT_OF_DISJUNCTION, &places, left, line)?;
    let second = push_denied(alloc, builder, RIGHT_OF_DISJUNCTION, &places, right, line)?;
    Ok(BothLines { first, second })
}

/// Lines that say that a premise is true and its conclusion false, from a line that says that the implication is false.
/// A refused call may leave lines behind, none of them bad.
#[tactic(auto, using(larch_derive::proofs::Growth::extends_same))]
pub fn push_implication_parts(
    alloc: Global,
    builder: &mut Builder,
    left: &Term,
    right: &Term,
    line: u64,
) -> Result<BothLines, Memory>
    ensures first { IfOk result (λ ns. HasEquation builder.old line (implication left.now right.now) falsity
        → HasEquation builder.new ns.first left.now truth) }
    ensures second { IfOk result (λ ns. HasEquation builder.old line (implication left.now right.now) falsity
        → HasEquation builder.new ns.second right.now falsity) }
    ensures extends { HasEquation builder.old line (implication left.now right.now) falsity
        → Extends builder.old builder.new }
{
    let places = Places {
        first: left,
        second: right,
    };
    let first = push_affirmed(alloc, builder, PREMISE, &places, left, line)?;
    let second = push_denied(alloc, builder, CONCLUSION, &places, right, line)?;
    Ok(BothLines { first, second })
}

/// A line that says that a term is false, from a line that says that its negation is true. A refused line may leave
/// lines behind, none of them bad.
#[tactic(auto, using(larch_derive::proofs::Growth::extends_same))]
pub fn push_false(
    alloc: Global,
    builder: &mut Builder,
    term: &Term,
    line: u64,
) -> Result<u64, Memory>
    ensures says { IfOk result (λ n. HasEquation builder.old line (negation term.now) truth
        → HasEquation builder.new n term.now falsity) }
    ensures extends { HasEquation builder.old line (negation term.now) truth → Extends builder.old builder.new }
{
    let number = push_opposite(alloc, builder, NOT_TRUE, term, line)?;
    Ok(number)
}

/// A line that says that a term is true, from a line that says that its negation is false. A refused line may leave
/// lines behind, none of them bad.
#[tactic(auto, using(larch_derive::proofs::Growth::extends_same))]
pub fn push_true(
    alloc: Global,
    builder: &mut Builder,
    term: &Term,
    line: u64,
) -> Result<u64, Memory>
    ensures says { IfOk result (λ n. HasEquation builder.old line (negation term.now) falsity
        → HasEquation builder.new n term.now truth) }
    ensures extends { HasEquation builder.old line (negation term.now) falsity → Extends builder.old builder.new }
{
    let number = push_opposite(alloc, builder, NOT_FALSE, term, line)?;
    Ok(number)
}

// A line that says a term's value, from a line that says that of its negation: a row says that the one is the
// negation of the other.
#[tactic(auto, using(larch_derive::proofs::Growth::extends_same))]
fn push_opposite(
    alloc: Global,
    builder: &mut Builder,
    row: u64,
    term: &Term,
    line: u64,
) -> Result<u64, Memory>
    ensures says { IfOk result (λ n. (u v : Tree) → HasEquation builder.old line (negation term.now) u
        → IsInstance builder.old (of_truths row term.now term.now) (negation u) v
        → HasEquation builder.new n term.now v) }
    ensures extends { (u v : Tree) → HasEquation builder.old line (negation term.now) u
        → IsInstance builder.old (of_truths row term.now term.now) (negation u) v → Extends builder.old builder.new }
{
    let first = of_truths(alloc, NOT_NOT, term, term)?;
    let second = of_truths(alloc, row, term, term)?;
    let number = push_reach(alloc, builder, first, 1, line, second)?;
    Ok(number)
}

// A line that says that what a step leads to is true.
#[tactic(auto, using(larch_derive::proofs::Growth::extends_same))]
fn push_affirmed(
    alloc: Global,
    builder: &mut Builder,
    step: Step,
    places: &Places,
    wanted: &Term,
    line: u64,
) -> Result<u64, Memory>
    ensures says { IfOk result (λ n. (f : PlainOperator) (done rest : List Tree) (t u v : Tree)
        → IsInstance builder.old (of_truths step.row places.now.first.now places.now.second.now)
        (app f (forest_of (done ++ t ∷ rest))) truth
        → step.argument ≡ length done + 1 → HasEquation builder.old line t u
        → IsInstance builder.old (of_truths step.further wanted.now wanted.now)
        (app f (forest_of (done ++ u ∷ rest))) v
        → HasEquation builder.new n v truth) }
    ensures extends { (f : PlainOperator) (done rest : List Tree) (t u v : Tree)
        → IsInstance builder.old (of_truths step.row places.now.first.now places.now.second.now)
        (app f (forest_of (done ++ t ∷ rest))) truth
        → step.argument ≡ length done + 1 → HasEquation builder.old line t u
        → IsInstance builder.old (of_truths step.further wanted.now wanted.now)
        (app f (forest_of (done ++ u ∷ rest))) v
        → Extends builder.old builder.new }
{
    let first = of_truths(alloc, step.row, places.first, places.second)?;
    let second = of_truths(alloc, step.further, wanted, wanted)?;
    let reached = push_reach(alloc, builder, first, step.argument, line, second)?;
    let number = push_sym(builder, reached)?;
    Ok(number)
}

// A line that says that a term is false, where a step leads to its negation.
#[tactic(auto, using(larch_derive::proofs::Growth::extends_same))]
fn push_denied(
    alloc: Global,
    builder: &mut Builder,
    step: Step,
    places: &Places,
    wanted: &Term,
    line: u64,
) -> Result<u64, Memory>
    ensures says { IfOk result (λ n. (f : PlainOperator) (done rest : List Tree) (t u : Tree)
        → IsInstance builder.old (of_truths step.row places.now.first.now places.now.second.now)
        (app f (forest_of (done ++ t ∷ rest))) truth
        → step.argument ≡ length done + 1 → HasEquation builder.old line t u
        → IsInstance builder.old (of_truths step.further wanted.now wanted.now)
        (app f (forest_of (done ++ u ∷ rest))) (negation wanted.now)
        → HasEquation builder.new n wanted.now falsity) }
    ensures extends { (f : PlainOperator) (done rest : List Tree) (t u : Tree)
        → IsInstance builder.old (of_truths step.row places.now.first.now places.now.second.now)
        (app f (forest_of (done ++ t ∷ rest))) truth
        → step.argument ≡ length done + 1 → HasEquation builder.old line t u
        → IsInstance builder.old (of_truths step.further wanted.now wanted.now)
        (app f (forest_of (done ++ u ∷ rest))) (negation wanted.now)
        → Extends builder.old builder.new }
{
    let denied = push_affirmed(alloc, builder, step, places, wanted, line)?;
    let number = push_false(alloc, builder, wanted, denied)?;
    Ok(number)
}
