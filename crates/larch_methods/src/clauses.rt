ghost use Rattle.std.specs.Prelude.{◌≡◌, List, Some, All, Contains, length, IfOk, IfSome, IfNone, OnOk, OnErr};
ghost use Rattle.larch_derive.specs.Builder.{lines_in, theory_in};
ghost use Rattle.larch_derive.specs.Predicates.{Grows, HasStatement};
ghost use Rattle.larch_derive.specs.declared.builder.Builder.{Builder as Built};
ghost use Rattle.larch_derive.specs.VerifyMeaningClauseRules.{own_operators};
ghost use Rattle.larch_derive.specs.VerifyMeaningLastLine.{EndsWithoutStatedClause};
ghost use Rattle.larch_methods.specs.Clauses.{ByConstants, ByPredicate};
ghost use Rattle.larch_term.specs.Operator.{PlainOperator};
ghost use Rattle.larch_term.specs.declared.statement.Statement.TheVariants.{Generated, Partitioned};

use crate::numbers::numbers_of;
use crate::refusals::undo_refused;
use larch_base::Memory;
use larch_certificate::Numbers;
use larch_derive::Builder;
use larch_derive_clauses::from_derive_boxes::close_box;
use larch_derive_clauses::{push_generated, push_partitioned};
use larch_derive_lines::push_equal;
use larch_term::{Operator, Sort, Theory};
use std::alloc::Global;

/// A clause: its sort, and the operators that generate or partition it.
#[derive(Drop)]
pub struct Clause<'a> {
    pub sort: &'a Sort,
    pub operators: &'a [Operator],
}

/// A line that says that operators generate a sort, by a line in the box of a new predicate: the box is closed, and the
/// line is the last. None where one of them isn't the theory's. Then, and where the call is refused, nothing changes:
/// the box is open still.
pub fn finish_generated(
    alloc: Global,
    builder: &mut Builder,
    theory: &Theory,
    clause: &Clause<'_>,
    number: u64,
    line: u64,
) -> Result<Option<u64>, Memory>
    ensures says { IfOk result (λ said. IfSome said (λ n. (a : Built) → theory_in a ≡ theory.now
        → ByPredicate a builder.old clause.now.sort.now clause.now.operators.now number line
        → HasStatement builder.new n (Generated clause.now.sort.now clause.now.operators.now))) }
    ensures grows { IfOk result (λ said. IfSome said (λ n. (a : Built) → theory_in a ≡ theory.now
        → ByPredicate a builder.old clause.now.sort.now clause.now.operators.now number line → Grows a builder.new)) }
    ensures last { IfOk result (λ said. IfSome said (λ n. n ≡ length (lines_in builder.new))) }
    ensures ends { IfOk result (λ said. IfSome said (λ n.
        EndsWithoutStatedClause (theory_in builder.new) (lines_in builder.new))) }
    ensures none { IfOk result (λ said. IfNone said (All (Contains theory.now.operators) clause.now.operators.now
        → ⊥)) }
    ensures same { IfOk result (λ said. IfNone said (builder.new ≡ builder.old)) }
    ensures err { OnErr result (builder.new ≡ builder.old) }
{
    let found = numbers_of(alloc, theory.operators.as_slice(), clause.operators)?;
    let Some(numbers) = found else {
        return Ok(None);
    };
    let sort = clause.sort.copy()?;
    let kept = builder.copy()?;
    let made = write_generated(alloc, builder, sort, numbers, number, line);
    let said = undo_refused(builder, kept, made)?;
    Ok(Some(said))
}

// The same, by the operators' numbers, but a refused call may leave the box closed.
fn write_generated(
    alloc: Global,
    builder: &mut Builder,
    sort: Sort,
    operators: Numbers,
    number: u64,
    line: u64,
) -> Result<u64, Memory>
    ensures says { IfOk result (λ n. (a : Built) (fs : List PlainOperator)
        → own_operators (theory_in a) operators ≡ Some fs → ByPredicate a builder.old sort fs number line
        → HasStatement builder.new n (Generated sort fs)) }
    ensures grows { OnOk result ((a : Built) (fs : List PlainOperator)
        → own_operators (theory_in a) operators ≡ Some fs → ByPredicate a builder.old sort fs number line
        → Grows a builder.new) }
    ensures last { IfOk result (λ n. n ≡ length (lines_in builder.new)) }
    ensures ends { OnOk result (EndsWithoutStatedClause (theory_in builder.new) (lines_in builder.new)) }
{
    close_box(alloc, builder, line)?;
    let said = push_generated(builder, number, sort, operators)?;
    Ok(said)
}

/// A line that says that operators partition a sort, by a line in the box of two new constants: the box is closed, and
/// the line is the last. None where one of them isn't the theory's. Then, and where the call is refused, nothing
/// changes: the box is open still.
pub fn finish_partitioned(
    alloc: Global,
    builder: &mut Builder,
    theory: &Theory,
    clause: &Clause<'_>,
    number: u64,
    line: u64,
) -> Result<Option<u64>, Memory>
    ensures says { IfOk result (λ said. IfSome said (λ n. (a : Built) → theory_in a ≡ theory.now
        → ByConstants a builder.old clause.now.sort.now clause.now.operators.now number line
        → HasStatement builder.new n (Partitioned clause.now.sort.now clause.now.operators.now))) }
    ensures grows { IfOk result (λ said. IfSome said (λ n. (a : Built) → theory_in a ≡ theory.now
        → ByConstants a builder.old clause.now.sort.now clause.now.operators.now number line → Grows a builder.new)) }
    ensures last { IfOk result (λ said. IfSome said (λ n. n ≡ length (lines_in builder.new))) }
    ensures ends { IfOk result (λ said. IfSome said (λ n.
        EndsWithoutStatedClause (theory_in builder.new) (lines_in builder.new))) }
    ensures none { IfOk result (λ said. IfNone said (All (Contains theory.now.operators) clause.now.operators.now
        → ⊥)) }
    ensures same { IfOk result (λ said. IfNone said (builder.new ≡ builder.old)) }
    ensures err { OnErr result (builder.new ≡ builder.old) }
{
    let found = numbers_of(alloc, theory.operators.as_slice(), clause.operators)?;
    let Some(numbers) = found else {
        return Ok(None);
    };
    let sort = clause.sort.copy()?;
    let kept = builder.copy()?;
    let made = write_partitioned(alloc, builder, sort, numbers, number, line);
    let said = undo_refused(builder, kept, made)?;
    Ok(Some(said))
}

// The same, by the operators' numbers, but a refused call may leave the box closed.
fn write_partitioned(
    alloc: Global,
    builder: &mut Builder,
    sort: Sort,
    operators: Numbers,
    number: u64,
    line: u64,
) -> Result<u64, Memory>
    ensures says { IfOk result (λ n. (a : Built) (os : List PlainOperator)
        → own_operators (theory_in a) operators ≡ Some os → ByConstants a builder.old sort os number line
        → HasStatement builder.new n (Partitioned sort os)) }
    ensures grows { OnOk result ((a : Built) (os : List PlainOperator)
        → own_operators (theory_in a) operators ≡ Some os → ByConstants a builder.old sort os number line
        → Grows a builder.new) }
    ensures last { IfOk result (λ n. n ≡ length (lines_in builder.new)) }
    ensures ends { OnOk result (EndsWithoutStatedClause (theory_in builder.new) (lines_in builder.new)) }
{
    let same = push_equal(builder, line)?;
    close_box(alloc, builder, same)?;
    let said = push_partitioned(builder, number, sort, operators)?;
    Ok(said)
}
