ghost use Rattle.std.specs.Prelude.{◌≡◌, ◌++◌, All, IfOk, OnOk, map};
ghost use Rattle.std.specs.List.{flat_map};
ghost use Rattle.larch_complete.specs.Stated.{AreStated, IsStated};
ghost use Rattle.larch_complete_meaning.specs.Completion.{task_of};
ghost use Rattle.larch_complete_pairs.specs.Said.{IsSaid, sides_in};
ghost use Rattle.larch_complete_rounds.specs.Task.{task_in};
ghost use Rattle.larch_derive.specs.Builder.{theory_in};
ghost use Rattle.larch_derive.specs.Predicates.{Extends, HasNoBadLine};
ghost use Rattle.larch_rewrite_meaning.specs.Sides.{sides_of};
ghost use Rattle.larch_term.specs.Statement.{IsWellSortedTheory};
ghost use Rattle.larch_term.specs.declared.statement.Statement.TheVariants.{Equation};

use larch_base::{Memory, Sequence};
use larch_complete_pairs::SaidEquation;
use larch_complete_rounds::CompletionTask;
use larch_derive::Builder;
use larch_derive_lines::push_axiom;
use larch_order::Precedence;
use larch_term::{Statement, Term, Theory, copy};
use std::alloc::Global;
use std::collections::VecDeque;

// What a theory's completion works with, where a builder over the theory says its equations.
#[tactic(auto, using(larch_derive::proofs::Growth::extends_same))]
pub(crate) fn state_task(
    alloc: Global,
    builder: &mut Builder,
    theory: &Theory,
    limit: u32,
) -> Result<CompletionTask, Memory>
    requires theory { theory_in builder.old ≡ theory.now }
    requires sorted { IsWellSortedTheory theory.now }
    requires stands { HasNoBadLine builder.old }
    ensures task { IfOk result (λ task. task_in task ≡ task_of theory.now limit) }
    ensures said { IfOk result (λ task. All (IsSaid builder.new) task.equations) }
    ensures extends { OnOk result (Extends builder.old builder.new) }
{
    let precedence = Precedence::of_theory(alloc, theory)?;
    let equations = state_equations(alloc, builder, theory.statements.as_slice())?;
    Ok(CompletionTask {
        precedence,
        budget: limit,
        equations,
    })
}

// The equations of a theory's statements, each with a line that says it.
#[tactic(auto, using(larch_derive::proofs::Growth::extends_same))]
fn state_equations(
    alloc: Global,
    builder: &mut Builder,
    statements: &[Statement],
) -> Result<Sequence<SaidEquation>, Memory>
    requires { AreStated builder.old statements.now }
    ensures sides { IfOk result (λ es. map sides_in es ≡ flat_map sides_of statements.now) }
    ensures said { IfOk result (All (IsSaid builder.new)) }
    ensures extends { OnOk result (Extends builder.old builder.new) }
{
    let mut equations = Sequence::new(alloc);
    for (index, statement) in statements.iter().enumerate() {
        push_stated(alloc, builder, &mut equations, index as u64 + 1, statement)?;
    }
    Ok(equations)
}

// Puts the statement of a number behind equations, where it is one, with a line that says it.
#[tactic(auto, using(larch_derive::proofs::Growth::extends_same))]
fn push_stated(
    alloc: Global,
    builder: &mut Builder,
    equations: &mut Sequence<SaidEquation>,
    number: u64,
    statement: &Statement,
) -> Result<(), Memory>
    requires stated { IsStated builder.old number statement.now }
    requires said { All (IsSaid builder.old) equations.old }
    ensures sides { OnOk result (map sides_in equations.new ≡ map sides_in equations.old ++ sides_of statement.now) }
    ensures said { OnOk result (All (IsSaid builder.new) equations.new) }
    ensures extends { OnOk result (Extends builder.old builder.new) }
{
    let Statement::Equation(left, right) = statement else {
        return Ok(());
    };
    let equation = state_equation(alloc, builder, number, left, right)?;
    equations.push(equation)?;
    Ok(())
}

// An equation among the theory's statements, by its number there, with a line that says it.
#[tactic(auto, using(larch_derive::proofs::Growth::extends_same))]
fn state_equation(
    alloc: Global,
    builder: &mut Builder,
    number: u64,
    left: &Term,
    right: &Term,
) -> Result<SaidEquation, Memory>
    requires { IsStated builder.old number (Equation left.now right.now) }
    ensures left { IfOk result (λ e. e.left ≡ left.now) }
    ensures right { IfOk result (λ e. e.right ≡ right.now) }
    ensures says { IfOk result (IsSaid builder.new) }
    ensures extends { OnOk result (Extends builder.old builder.new) }
{
    let line = push_axiom(builder, number)?;
    let left = copy(alloc, left)?;
    let right = copy(alloc, right)?;
    Ok(SaidEquation { left, right, line })
}

// The same equations once more, as a queue.
pub(crate) fn queue_of(
    alloc: Global,
    equations: &[SaidEquation],
) -> Result<VecDeque<SaidEquation>, Memory>
    ensures { IfOk result (λ queue. queue.items ≡ equations.now) }
{
    let mut queue = VecDeque::new(alloc);
    for equation in equations {
        let copied = copy_equation(alloc, equation)?;
        queue.push_back(copied)?;
    }
    Ok(queue)
}

// The same equation once more.
fn copy_equation(alloc: Global, equation: &SaidEquation) -> Result<SaidEquation, Memory>
    ensures { IfOk result (λ copied. copied ≡ equation.now) }
{
    let left = copy(alloc, &equation.left)?;
    let right = copy(alloc, &equation.right)?;
    Ok(SaidEquation {
        left,
        right,
        line: equation.line,
    })
}
