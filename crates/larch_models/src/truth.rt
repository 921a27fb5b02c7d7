ghost use Rattle.std.specs.Prelude.{◌≡◌, ◌↔◌, ◌≤◌, IsTrue, IfOk, true};
ghost use Rattle.larch_calculus.specs.Derivable.{Derivable};
ghost use Rattle.larch_models_meaning.specs.Computed.{holds, variables_of_both};
ghost use Rattle.larch_models_meaning.specs.FiniteModel.{Fits, assignment_count, first_failing, interpretation_of};
ghost use Rattle.larch_models_meaning.specs.FiniteModel.{last_in};
ghost use Rattle.larch_models.specs.Answers.{failing};
ghost use Rattle.larch_models_meaning.specs.FiniteModel.{last_among};
ghost use Rattle.larch_models_meaning.specs.Standard.{standard_last};
ghost use Rattle.larch_term.specs.Statement.{IsWellSortedTheory};
ghost use Rattle.larch_term.specs.declared.statement.Statement.{Statement};

use crate::equation::{holds_equation, variables_of_both};
use crate::generated::holds_generated;
use crate::partitioned::holds_partitioned;
use crate::sorts::last_value;
use larch_base::Memory;
use larch_models_meaning::{FiniteModel, SortValues};
use larch_term::{Statement, Term, Theory, Variable};
use std::alloc::Global;

/// The most assignments that the variables of an equation may have.
pub const MAX_ASSIGNMENTS: u64 = 1_000_000;

/// Whether the truth of a statement may be computed: it is a clause, or the variables of an equation, each counted
/// once, have at most [`MAX_ASSIGNMENTS`] assignments. `Memory` comes only out of memory.
pub fn fits(alloc: Global, model: &FiniteModel, statement: &Statement) -> Result<bool, Memory>
    ensures { IfOk result (λ answer. IsTrue answer ↔ Fits MAX_ASSIGNMENTS model.now statement.now) }
{
    match statement {
        Statement::Equation(left, right) => equation_fits(alloc, model, left, right),
        Statement::Generated(_, _) | Statement::Partitioned(_, _) => Ok(true),
    }
}

fn equation_fits(
    alloc: Global,
    model: &FiniteModel,
    left: &Term,
    right: &Term,
) -> Result<bool, Memory>
    ensures { IfOk result (λ answer. IsTrue answer
        ↔ (assignment_count (last_in model.now) (variables_of_both left.now right.now) ≤ MAX_ASSIGNMENTS)) }
{
    let variables = variables_of_both(alloc, left, right)?;
    Ok(are_few(model.sorts.as_slice(), variables.as_slice()))
}

// Whether variables have few assignments. The product ends where it passes the most.
#[tactic(auto, using(crate::proofs::Counts::count_more, crate::proofs::Counts::count_beyond))]
fn are_few(sorts: &[SortValues], variables: &[Variable]) -> bool
    ensures { IsTrue result
        ↔ (assignment_count (standard_last (last_among sorts.now)) variables.now ≤ MAX_ASSIGNMENTS) }
{
    let mut count: u64 = 1;
    for variable in variables {
        count *= u64::from(last_value(sorts, &variable.sort)) + 1;
        if count > MAX_ASSIGNMENTS {
            return false;
        }
    }
    true
}

/// Whether a statement holds in a model, which need not have a table for each operator: where there is none, the value
/// is 0. The time grows with the number of assignments or arguments, the memory doesn't. `Memory` comes only out of
/// memory.
pub fn holds(alloc: Global, model: &FiniteModel, statement: &Statement) -> Result<bool, Memory>
    ensures { IfOk result (λ answer. answer ≡ holds (interpretation_of model.now) statement.now) }
{
    match statement {
        Statement::Equation(left, right) => holds_equation(alloc, model, left, right),
        Statement::Generated(sort, operators) => holds_generated(
            alloc,
            model,
            sort,
            operators.as_slice(),
        ),
        Statement::Partitioned(sort, operators) => holds_partitioned(
            alloc,
            model,
            sort,
            operators.as_slice(),
        ),
    }
}

/// Whether all statements of a theory hold in a model.
#[derive(Clone, Copy, Debug, PartialEq, Eq)]
pub enum ModelAnswer {
    /// All hold.
    Model,
    /// The statement with this number, counted from 1, is the first that doesn't.
    Fails(u64),
}

/// Whether a model is one of a theory, or the first of its statements that doesn't hold. What is derivable from a
/// theory that it is a model of holds in it. `Memory` comes only out of memory.
#[tactic(auto, using(crate::proofs::Answers::derivable_holds))]
pub fn check_model(
    alloc: Global,
    theory: &Theory,
    model: &FiniteModel,
) -> Result<ModelAnswer, Memory>
    ensures first { IfOk result (λ answer. failing answer
        ≡ first_failing (interpretation_of model.now) theory.now.statements) }
    ensures derivable { IfOk result (λ answer. answer ≡ ModelAnswer.Model → IsWellSortedTheory theory.now
        → (s : Statement) → Derivable theory.now s → holds (interpretation_of model.now) s ≡ true) }
{
    let mut number: u64 = 1;
    for statement in theory.statements.as_slice() {
        if !holds(alloc, model, statement)? {
            return Ok(ModelAnswer::Fails(number));
        }
        number += 1;
    }
    Ok(ModelAnswer::Model)
}
