ghost use Rattle.std.specs.Prelude.{◌≡◌, IfOk, OnOk, OnErr};
ghost use Rattle.larch_derive.specs.Predicates.{Grows, HasEquation};
ghost use Rattle.larch_derive.specs.declared.builder.Builder.{Builder as Built};
ghost use Rattle.larch_methods.specs.Methods.{ByCases};
ghost use Rattle.larch_term.specs.Tree.{Tree};
ghost use Rattle.larch_term.specs.Truth.{truth};

use crate::boxes::write_freed;
use crate::refusals::undo_refused;
use larch_base::Memory;
use larch_derive::Builder;
use larch_derive_clauses::from_derive_boxes::push_cases;
use larch_term::{Term, variables};
use std::alloc::Global;

/// A line that says that the goal is true, by cases of a formula: by the box of constants that both cases share, which
/// is closed, and the closed boxes of the case in which the formula is true and of that in which it is false. A refused
/// call changes nothing, so the shared box is open still.
pub fn finish_cases(
    alloc: Global,
    builder: &mut Builder,
    formula: &Term,
    shared: u64,
    first: u64,
    second: u64,
) -> Result<u64, Memory>
    ensures says { IfOk result (λ n. (a : Built) (g : Tree) → ByCases a builder.old formula.now g shared first second
        → HasEquation builder.new n g truth) }
    ensures grows { OnOk result ((a : Built) (g : Tree) → ByCases a builder.old formula.now g shared first second
        → Grows a builder.new) }
    ensures err { OnErr result (builder.new ≡ builder.old) }
{
    let kept = builder.copy()?;
    let made = write_cases(alloc, builder, formula, shared, first, second);
    let shown = undo_refused(builder, kept, made)?;
    Ok(shown)
}

// The same, but a refused call may leave the shared box closed.
fn write_cases(
    alloc: Global,
    builder: &mut Builder,
    formula: &Term,
    shared: u64,
    first: u64,
    second: u64,
) -> Result<u64, Memory>
    ensures says { IfOk result (λ n. (a : Built) (g : Tree) → ByCases a builder.old formula.now g shared first second
        → HasEquation builder.new n g truth) }
    ensures grows { OnOk result ((a : Built) (g : Tree) → ByCases a builder.old formula.now g shared first second
        → Grows a builder.new) }
{
    let variables = variables(alloc, formula)?;
    let line = push_cases(builder, first, second)?;
    let freed = write_freed(alloc, builder, shared, line, variables.as_slice())?;
    Ok(freed)
}
