ghost use Rattle.std.specs.Prelude.{◌≡◌, ◌∷◌, [], IfOk};
ghost use Rattle.larch_term.specs.Substitution.{instance_of};
ghost use Rattle.larch_term.specs.declared.statement.Statement.TheVariants.{Equation};

use crate::subgoals::{Subgoal, Subgoals};
use larch_base::{Memory, Sequence};
use larch_term::{Statement, Statements, Substitution, Term, substitute};
use std::alloc::Global;

// A subgoal in which a term has a value, both closed by a substitution.
pub(crate) fn supposing(
    alloc: Global,
    by: &Substitution,
    premise: &Term,
    value: Term,
    goal: &Term,
) -> Result<Subgoal, Memory>
    ensures { IfOk result (λ s. s ≡ record {
      constants = [];
      hypotheses = Equation (instance_of by.now premise.now) value ∷ [];
      goal = instance_of by.now goal.now;
    }) }
{
    let premise = substitute(alloc, premise, by)?;
    let hypotheses = one(alloc, Statement::Equation(premise, value))?;
    let goal = substitute(alloc, goal, by)?;
    Ok(Subgoal {
        constants: Sequence::new(alloc),
        hypotheses,
        goal,
    })
}

fn one(alloc: Global, statement: Statement) -> Result<Statements, Memory>
    ensures { IfOk result (λ ss. ss ≡ statement ∷ []) }
{
    let mut statements = Sequence::new(alloc);
    statements.push(statement)?;
    Ok(statements)
}

// A single subgoal.
pub(crate) fn only(alloc: Global, subgoal: Subgoal) -> Result<Subgoals, Memory>
    ensures { IfOk result (λ ss. ss ≡ subgoal ∷ []) }
{
    let mut subgoals = Sequence::new(alloc);
    subgoals.push(subgoal)?;
    Ok(subgoals)
}
