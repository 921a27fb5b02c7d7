ghost use Rattle.std.specs.Prelude.{◌≡◌, IfOk};
ghost use Rattle.larch_derive_lines.specs.CalculusFormula.{falsity};
ghost use Rattle.larch_derive_lines.specs.DerivePredicates.{Extends, HasEquation, Known};
ghost use Rattle.larch_term.specs.Sorts.{sort_of};
ghost use Rattle.larch_term.specs.Truth.{truth};

use crate::instances::{of_values, push_reach};
use larch_base::Memory;
use larch_derive_lines::from_derive::Builder;
use larch_term::{Term, sort_of};
use std::alloc::Global;

// The choices that are their first and their second term.
const CHOICE_BY_TRUE: u64 = 27;

const CHOICE_BY_FALSE: u64 = 28;

/// A line that says any equation of known terms, from a line that says that true equals false. A refused line may leave
/// lines behind, none of them bad.
#[tactic(auto, using(larch_derive::proofs::Growth::extends_same))]
pub fn absurd(
    alloc: Global,
    builder: &mut Builder,
    left: &Term,
    right: &Term,
    line: u64,
) -> Result<u64, Memory>
    ensures says { IfOk result (λ n. Known builder.old left.now → Known builder.old right.now
        → sort_of left.now ≡ sort_of right.now → HasEquation builder.old line truth falsity
        → HasEquation builder.new n left.now right.now) }
    ensures extends { Known builder.old left.now → Known builder.old right.now
        → sort_of left.now ≡ sort_of right.now → HasEquation builder.old line truth falsity
        → Extends builder.old builder.new }
{
    let sort = sort_of(left);
    let first = of_values(alloc, CHOICE_BY_TRUE, sort, left, right)?;
    let second = of_values(alloc, CHOICE_BY_FALSE, sort, left, right)?;
    let number = push_reach(alloc, builder, first, 1, line, second)?;
    Ok(number)
}
