ghost use Rattle.std.specs.Prelude.{◌≡◌, ◌∷◌, [], codes, IfOk, OnOk};
ghost use Rattle.larch_calculus.specs.Formula.{equality};
ghost use Rattle.larch_derive.specs.Predicates.{Extends, HasEquation, Known};
ghost use Rattle.larch_term.specs.Sorts.{sort_of};
ghost use Rattle.larch_term.specs.Tree.{Tree};
ghost use Rattle.larch_term.specs.Truth.{truth};

use larch_base::{Memory, Name};
use larch_derive::Builder;
use larch_prove_invariant::from_derive_lines::{push_argument, push_inst, push_row, push_sym};
use larch_term::{Substitution, Term, copy, sort_of};
use std::alloc::Global;

// The row that says that a term is equal to itself.
const ITS_OWN_EQUAL: u64 = 24;

// A line that says that the equality of two terms is true, at truth values too, by a line that says that they are
// equal.
pub(crate) fn push_equality(
    alloc: Global,
    builder: &mut Builder,
    left: &Term,
    line: u64,
) -> Result<u64, Memory>
    ensures says { IfOk result (λ n. (r : Tree) → HasEquation builder.old line left.now r
        → HasEquation builder.new n (equality (sort_of left.now) left.now r) truth) }
    ensures extends { OnOk result ((r : Tree) → HasEquation builder.old line left.now r
        → Extends builder.old builder.new) }
{
    let itself = push_itself(alloc, builder, left)?;
    let back = push_sym(builder, itself)?;
    let changed = push_argument(alloc, builder, back, 2, line)?;
    push_sym(builder, changed)
}

// A line that says that the equality of a term with itself is true.
fn push_itself(alloc: Global, builder: &mut Builder, term: &Term) -> Result<u64, Memory>
    ensures says { IfOk result (λ n. Known builder.old term.now
        → HasEquation builder.new n (equality (sort_of term.now) term.now term.now) truth) }
    ensures extends { OnOk result (Known builder.old term.now → Extends builder.old builder.new) }
{
    let by = for_a(alloc, term)?;
    let sort = sort_of(term).copy()?;
    let stated = push_row(builder, ITS_OWN_EQUAL, Some(sort))?;
    push_inst(alloc, builder, stated, &by)
}

// A term for the variable a of its sort.
fn for_a(alloc: Global, term: &Term) -> Result<Substitution, Memory>
    ensures { IfOk result (λ by. by
        ≡ record { name = codes "a"; sort = sort_of term.now; term = term.now } ∷ []) }
{
    let name = Name::new(alloc, b"a")?;
    let sort = sort_of(term).copy()?;
    let term = copy(alloc, term)?;
    let mut by = Substitution::new(alloc);
    by.push(name, sort, term)?;
    Ok(by)
}
