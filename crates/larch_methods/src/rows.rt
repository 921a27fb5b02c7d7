ghost use Rattle.std.specs.Prelude.{◌≡◌, None, Some, codes, IfOk};
ghost use Rattle.larch_calculus.specs.Generation.{only};
ghost use Rattle.larch_derive.specs.Predicates.{Extends, HasEquation, Known};
ghost use Rattle.larch_derive.specs.VerifyMeaningRules.{row_says};
ghost use Rattle.larch_methods.specs.Methods.{IsKnownFormula};
ghost use Rattle.larch_methods.specs.Rows.{IsSettledBy, of_formula};
ghost use Rattle.larch_term.specs.BuiltIn.{bool_sort};
ghost use Rattle.larch_term.specs.Tree.{Tree};
ghost use Rattle.larch_term.specs.declared.statement.Statement.TheVariants.{Equation as equation};

use larch_base::{Memory, Name};
use larch_derive::Builder;
use larch_derive_lines::{push_argument, push_inst, push_refl, push_row, push_trans};
use larch_term::{Substitution, Term, bool_sort, copy};
use std::alloc::Global;

// A line that says a row of truth values with a formula in the place of its variable.
#[tactic(auto, using(larch_derive::proofs::Growth::extends_same))]
fn row_at(alloc: Global, builder: &mut Builder, row: u64, formula: &Term) -> Result<u64, Memory>
    ensures says { IfOk result (λ n. (l r : Tree) → row_says row None ≡ Some (equation l r)
        → IsKnownFormula builder.old formula.now
        → HasEquation builder.new n (of_formula formula.now l) (of_formula formula.now r)) }
    ensures extends { (l r : Tree) → row_says row None ≡ Some (equation l r)
        → IsKnownFormula builder.old formula.now → Extends builder.old builder.new }
{
    let by = for_x(alloc, formula)?;
    let stated = push_row(builder, row, None)?;
    let line = push_inst(alloc, builder, stated, &by)?;
    Ok(line)
}

// A formula for x.
fn for_x(alloc: Global, formula: &Term) -> Result<Substitution, Memory>
    ensures { IfOk result (λ by. by ≡ only (codes "x") bool_sort formula.now) }
{
    let name = Name::new(alloc, b"x")?;
    let sort = bool_sort(alloc)?;
    let formula = copy(alloc, formula)?;
    let mut by = Substitution::new(alloc);
    by.push(name, sort, formula)?;
    Ok(by)
}

// What a line says of an argument of a term: the argument's number, and the line's.
#[derive(Drop)]
pub(crate) struct SaidArgument {
    pub(crate) argument: u64,
    pub(crate) line: u64,
}

// A line that says what a connective comes to, one argument of which is a truth value by a line: by a row, with a
// formula in the place of its variable.
#[tactic(auto, using(larch_derive::proofs::Growth::extends_same))]
pub(crate) fn push_settled(
    alloc: Global,
    builder: &mut Builder,
    whole: &Term,
    said: SaidArgument,
    row: u64,
    formula: &Term,
) -> Result<u64, Memory>
    ensures says { IfOk result (λ n. (v : Tree)
        → IsSettledBy builder.old whole.now said.argument said.line row formula.now v
        → HasEquation builder.new n whole.now v) }
    ensures extends { (v : Tree) → IsSettledBy builder.old whole.now said.argument said.line row formula.now v
        → Extends builder.old builder.new }
{
    let same = push_refl(builder, whole)?;
    let changed = push_argument(alloc, builder, same, said.argument, said.line)?;
    let settled = row_at(alloc, builder, row, formula)?;
    let number = push_trans(alloc, builder, changed, settled)?;
    Ok(number)
}
