ghost use Rattle.std.specs.Prelude.{IfOk};
ghost use Rattle.larch_derive.specs.Predicates.{Extends, HasEquation};
ghost use Rattle.larch_methods.specs.Methods.{ByInduction};
ghost use Rattle.larch_term.specs.Truth.{truth};

use crate::boxes::{coded_variable, value_term};
use larch_base::Memory;
use larch_certificate::Numbers;
use larch_derive::Builder;
use larch_derive_clauses::push_induct;
use larch_derive_lines::push_axiom;
use larch_term::{Term, Variable};
use std::alloc::Global;

/// A line that says that the goal is true, by induction on a variable: by the number of the clause that generates its
/// sort, and the closed boxes of its generators, in order. A refused call may leave a line behind that isn't bad.
#[tactic(auto, using(larch_derive::proofs::Growth::extends_same))]
pub fn finish_induction(
    alloc: Global,
    builder: &mut Builder,
    clause: u64,
    variable: &Variable,
    goal: &Term,
    boxes: Numbers,
) -> Result<u64, Memory>
    ensures says { IfOk result (λ n. ByInduction builder.old clause variable.now goal.now boxes
        → HasEquation builder.new n goal.now truth) }
    ensures extends { ByInduction builder.old clause variable.now goal.now boxes
        → Extends builder.old builder.new }
{
    let variable = coded_variable(variable)?;
    let truth = value_term(alloc, true)?;
    let stated = push_axiom(builder, clause)?;
    let line = push_induct(builder, stated, variable, goal, &truth, boxes)?;
    Ok(line)
}
