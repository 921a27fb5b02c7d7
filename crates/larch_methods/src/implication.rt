ghost use Rattle.std.specs.Prelude.{◌≡◌, [], ◌∷◌, false, IfOk, OnOk, OnErr};
ghost use Rattle.larch_calculus.specs.Formula.{implication};
ghost use Rattle.larch_derive.specs.Predicates.{Extends, Grows, HasEquation};
ghost use Rattle.larch_derive.specs.declared.builder.Builder.{Builder as Built};
ghost use Rattle.larch_methods.specs.Inside.{ShowsUnder};
ghost use Rattle.larch_methods.specs.Methods.{ByImplication, IsKnownFormula};
ghost use Rattle.larch_term.specs.Tree.{Tree};
ghost use Rattle.larch_term.specs.Truth.{truth};
ghost use Rattle.larch_term.specs.Variable.{variables_of};

use crate::arguments::arguments_of;
use crate::boxes::{supposing_box, write_freed};
use crate::refusals::undo_refused;
use crate::rows::{SaidArgument, push_settled};
use larch_base::Memory;
use larch_derive::Builder;
use larch_derive_clauses::from_derive_boxes::{close_box, push_cases, push_hyp};
use larch_term::{Term, Variables, variables};
use std::alloc::Global;

// The row that says that false implies anything, and the one that says that anything implies true.
const FROM_FALSE: u64 = 15;

const TO_TRUE: u64 = 16;

/// A line that says that an implication is true, by a line that says that its conclusion is. A refused call may leave
/// lines behind, none of them bad.
#[tactic(auto, using(larch_derive::proofs::Growth::extends_same))]
pub fn push_implied(
    alloc: Global,
    builder: &mut Builder,
    whole: &Term,
    line: u64,
) -> Result<u64, Memory>
    ensures says { IfOk result (λ n. (p q : Tree) → whole.now ≡ implication p q
        → IsKnownFormula builder.old whole.now → HasEquation builder.old line q truth
        → HasEquation builder.new n whole.now truth) }
    ensures extends { (p q : Tree) → whole.now ≡ implication p q
        → IsKnownFormula builder.old whole.now → HasEquation builder.old line q truth
        → Extends builder.old builder.new }
{
    let two = arguments_of(whole)?;
    let said = SaidArgument { argument: 2, line };
    let implied = push_settled(alloc, builder, whole, said, TO_TRUE, two.first)?;
    Ok(implied)
}

// A closed box without constants, which supposes that the premise of an implication is false, and shows that the whole
// is true: its number. A refused call may leave it open.
fn vacuous_box(alloc: Global, builder: &mut Builder, whole: &Term) -> Result<u64, Memory>
    ensures shows { IfOk result (λ n. (p q : Tree) → whole.now ≡ implication p q
        → IsKnownFormula builder.old whole.now → ShowsUnder builder.new p false whole.now n) }
    ensures grows { OnOk result ((p q : Tree) → whole.now ≡ implication p q → IsKnownFormula builder.old whole.now
        → Grows builder.old builder.new) }
{
    let two = arguments_of(whole)?;
    let number = supposing_box(alloc, builder, two.first, false)?;
    let denied = push_hyp(builder, number, 1)?;
    let said = SaidArgument {
        argument: 1,
        line: denied,
    };
    let line = push_settled(alloc, builder, whole, said, FROM_FALSE, two.second)?;
    close_box(alloc, builder, line)?;
    Ok(number)
}

/// A line that says that an implication is true: by the same with constants in the places of its premise's variables,
/// the box of these constants, which is closed, and the closed box in which the premise is supposed to be true. A
/// refused call changes nothing, so the box of the constants is open still.
pub fn finish_implication(
    alloc: Global,
    builder: &mut Builder,
    goal: &Term,
    closed: &Term,
    shared: u64,
    number: u64,
) -> Result<u64, Memory>
    ensures says { IfOk result (λ n. (a : Built) (p q : Tree) → goal.now ≡ implication p q
        → ByImplication a builder.old p q closed.now shared number → HasEquation builder.new n goal.now truth) }
    ensures grows { OnOk result ((a : Built) (p q : Tree) → goal.now ≡ implication p q
        → ByImplication a builder.old p q closed.now shared number → Grows a builder.new) }
    ensures err { OnErr result (builder.new ≡ builder.old) }
{
    let kept = builder.copy()?;
    let made = write_implication(alloc, builder, goal, closed, shared, number);
    let shown = undo_refused(builder, kept, made)?;
    Ok(shown)
}

// The same, but a refused call may leave boxes open that weren't, and the box of the constants closed.
fn write_implication(
    alloc: Global,
    builder: &mut Builder,
    goal: &Term,
    closed: &Term,
    shared: u64,
    number: u64,
) -> Result<u64, Memory>
    ensures says { IfOk result (λ n. (a : Built) (p q : Tree) → goal.now ≡ implication p q
        → ByImplication a builder.old p q closed.now shared number → HasEquation builder.new n goal.now truth) }
    ensures grows { OnOk result ((a : Built) (p q : Tree) → goal.now ≡ implication p q
        → ByImplication a builder.old p q closed.now shared number → Grows a builder.new) }
{
    let variables = premise_variables(alloc, goal)?;
    let otherwise = vacuous_box(alloc, builder, closed)?;
    let line = push_cases(builder, number, otherwise)?;
    let freed = write_freed(alloc, builder, shared, line, variables.as_slice())?;
    Ok(freed)
}

// The variables of an implication's premise.
fn premise_variables(alloc: Global, goal: &Term) -> Result<Variables, Memory>
    ensures { IfOk result (λ vs. (p q : Tree) → goal.now ≡ implication p q → vs ≡ variables_of p) }
{
    let two = arguments_of(goal)?;
    let found = variables(alloc, two.first)?;
    Ok(found)
}
