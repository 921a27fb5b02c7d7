ghost use Rattle.std.specs.Prelude.{◌≡◌, ◌++◌, IfOk, OnOk};
ghost use Rattle.larch_prove_beginning.specs.Hypotheses.{all_said, said_by};

use larch_base::Memory;
use larch_prove_opening::from_prove_adding::SaidEquation;
use larch_term::{Statement, copy};
use std::alloc::Global;

// The equations among hypotheses, with the lines that say them.
pub(crate) fn said_equations(
    alloc: Global,
    hypotheses: &[Statement],
    lines: &[u64],
) -> Result<Vec<SaidEquation>, Memory>
    ensures { IfOk result (λ es. es.items ≡ all_said hypotheses.now lines.now) }
{
    let mut equations = Vec::new(alloc);
    for index in 0..hypotheses.len() {
        let Some(line) = lines.get(index) else {
            return Ok(equations);
        };
        push_said(alloc, &hypotheses[index], *line, &mut equations)?;
    }
    Ok(equations)
}

// Puts an equation behind others, with the line that says it; a clause not.
fn push_said(
    alloc: Global,
    hypothesis: &Statement,
    line: u64,
    equations: &mut Vec<SaidEquation>,
) -> Result<(), Memory>
    ensures { OnOk result (equations.new.items ≡ equations.old.items ++ said_by hypothesis.now line) }
{
    let Statement::Equation(left, right) = hypothesis else {
        return Ok(());
    };
    let left = copy(alloc, left)?;
    let right = copy(alloc, right)?;
    equations.push(SaidEquation { left, right, line })?;
    Ok(())
}
