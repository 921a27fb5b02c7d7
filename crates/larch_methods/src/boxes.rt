ghost use Rattle.std.specs.Prelude.{◌≡◌, [], ◌∷◌, map, true, IfOk, OnOk, OnErr};
ghost use Rattle.larch_derive.specs.Predicates.{Grows, HasEquation, Known};
ghost use Rattle.larch_derive.specs.declared.builder.Builder.{Builder as Built};
ghost use Rattle.larch_derive.specs.declared.open_box.OpenBox.{OpenBox};
ghost use Rattle.larch_derive_clauses.specs.DeriveBoxesBoxes.{Opens};
ghost use Rattle.larch_methods.specs.Inside.{IsInside, ShowsUnder, closed_in, value_term, written_variable};
ghost use Rattle.larch_methods.specs.Methods.{IsKnownFormula};
ghost use Rattle.larch_term.specs.Sorts.{sort_of};
ghost use Rattle.larch_term.specs.Tree.{Tree};
ghost use Rattle.larch_term.specs.declared.statement.Statement.TheVariants.{Equation as equation};

use crate::refusals::undo_refused;
use larch_base::{Memory, Sequence};
use larch_certificate::{CodedVar, CodedVars};
use larch_derive::Builder;
use larch_derive_clauses::from_derive_boxes::{close_box, push_fresh, push_hyp};
use larch_term::{BuiltIn, Statement, Statements, Term, Variable, copy};
use std::alloc::Global;

/// Closes the innermost box, which supposes nothing, with the equation that a line says, and says it with variables in
/// the places of the box's constants. A refused call changes nothing, so the box is open still.
pub fn push_freed(
    alloc: Global,
    builder: &mut Builder,
    number: u64,
    line: u64,
    variables: &[Variable],
) -> Result<u64, Memory>
    ensures says { IfOk result (λ n. (a : Built) (x : OpenBox) (l r : Tree) → x.number ≡ number
        → IsInside a builder.old x variables.now
        → HasEquation builder.old line (closed_in variables.now x l) (closed_in variables.now x r)
        → Known a l → Known a r → sort_of l ≡ sort_of r → HasEquation builder.new n l r) }
    ensures grows { OnOk result ((a : Built) (x : OpenBox) (l r : Tree) → x.number ≡ number
        → IsInside a builder.old x variables.now
        → HasEquation builder.old line (closed_in variables.now x l) (closed_in variables.now x r)
        → Known a l → Known a r → Grows a builder.new) }
    ensures err { OnErr result (builder.new ≡ builder.old) }
{
    let kept = builder.copy()?;
    let made = write_freed(alloc, builder, number, line, variables);
    let freed = undo_refused(builder, kept, made)?;
    Ok(freed)
}

// The same, but a refused call may leave the box closed.
pub(crate) fn write_freed(
    alloc: Global,
    builder: &mut Builder,
    number: u64,
    line: u64,
    variables: &[Variable],
) -> Result<u64, Memory>
    ensures says { IfOk result (λ n. (a : Built) (x : OpenBox) (l r : Tree) → x.number ≡ number
        → IsInside a builder.old x variables.now
        → HasEquation builder.old line (closed_in variables.now x l) (closed_in variables.now x r)
        → Known a l → Known a r → sort_of l ≡ sort_of r → HasEquation builder.new n l r) }
    ensures grows { OnOk result ((a : Built) (x : OpenBox) (l r : Tree) → x.number ≡ number
        → IsInside a builder.old x variables.now
        → HasEquation builder.old line (closed_in variables.now x l) (closed_in variables.now x r)
        → Known a l → Known a r → Grows a builder.new) }
{
    let variables = coded_variables(alloc, variables)?;
    close_box(alloc, builder, line)?;
    let freed = push_fresh(builder, number, variables)?;
    Ok(freed)
}

// Variables as lines write them.
fn coded_variables(alloc: Global, variables: &[Variable]) -> Result<CodedVars, Memory>
    ensures { IfOk result (λ vs. vs ≡ map written_variable variables.now) }
{
    let mut coded = Sequence::new(alloc);
    for variable in variables {
        let variable = coded_variable(variable)?;
        coded.push(variable)?;
    }
    Ok(coded)
}

// A variable as lines write it.
pub(crate) fn coded_variable(variable: &Variable) -> Result<CodedVar, Memory>
    ensures { IfOk result (λ v. v ≡ written_variable variable.now) }
{
    let name = variable.name.copy()?;
    let sort = variable.sort.copy()?;
    Ok(CodedVar { name, sort })
}

/// Opens a box without constants that supposes that a formula is true, or that it is false, and answers its number. A
/// refused call changes nothing.
pub fn supposing_box(
    alloc: Global,
    builder: &mut Builder,
    formula: &Term,
    value: bool,
) -> Result<u64, Memory>
    ensures opens { IfOk result (λ n. IsKnownFormula builder.old formula.now
        → Opens builder.old builder.new (record { number = n; constants = [] })
        (equation formula.now (value_term value) ∷ [])) }
    ensures err { OnErr result (builder.new ≡ builder.old) }
{
    let hypotheses = supposed(alloc, formula, value)?;
    let number = builder.open_box(&Sequence::new(alloc), &hypotheses)?;
    Ok(number)
}

// That a formula has a truth value, as the only hypothesis.
fn supposed(alloc: Global, formula: &Term, value: bool) -> Result<Statements, Memory>
    ensures { IfOk result (λ hs. hs ≡ equation formula.now (value_term value) ∷ []) }
{
    let formula = copy(alloc, formula)?;
    let value = value_term(alloc, value)?;
    let mut hypotheses = Sequence::new(alloc);
    hypotheses.push(Statement::Equation(formula, value))?;
    Ok(hypotheses)
}

// A truth value as a term.
pub(crate) fn value_term(alloc: Global, value: bool) -> Result<Term, Memory>
    ensures { IfOk result (λ t. t ≡ value_term value) }
{
    let word = if value { BuiltIn::True } else { BuiltIn::False };
    let term = word.constant(alloc)?;
    Ok(term)
}

// A closed box without constants, which supposes that a formula is true and shows just that: its number. A refused call
// may leave it open.
pub(crate) fn trivial_box(
    alloc: Global,
    builder: &mut Builder,
    formula: &Term,
) -> Result<u64, Memory>
    ensures shows { IfOk result (λ n. IsKnownFormula builder.old formula.now
        → ShowsUnder builder.new formula.now true formula.now n) }
    ensures grows { OnOk result (IsKnownFormula builder.old formula.now → Grows builder.old builder.new) }
{
    let number = supposing_box(alloc, builder, formula, true)?;
    let line = push_hyp(builder, number, 1)?;
    close_box(alloc, builder, line)?;
    Ok(number)
}
