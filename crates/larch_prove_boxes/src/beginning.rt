ghost use Rattle.std.specs.Prelude.{◌≡◌, ◌≢◌, ℕ, List, IfOk};
ghost use Rattle.larch_calculus.specs.Theories.{AreNew};
ghost use Rattle.larch_derive.specs.Words.{IsWordedStatement};
ghost use Rattle.larch_prove_boxes.specs.Lowest.{IsBegun};
ghost use Rattle.larch_prove_invariant.specs.Holding.{IsStart};
ghost use Rattle.larch_prove_invariant.specs.ProvePlansClauseGoals.{generation_goal, partition_goal};
ghost use Rattle.larch_term.specs.Operator.{PlainOperator};
ghost use Rattle.larch_term.specs.Statement.{IsStatementOver};
ghost use Rattle.larch_term.specs.declared.statement.Statement.{Statement as IsStatement};
ghost use Rattle.larch_term.specs.declared.statement.Statement.TheVariants.{Equation, Generated, Partitioned};
ghost use Rattle.larch_term.specs.declared.statement.Theory.{Theory as IsTheory};

use crate::entering::push_hypotheses;
use larch_base::{Memory, Sequence};
use larch_certificate::Numbers;
use larch_derive::{Builder, OpenBox};
use larch_prove_invariant::from_derive_lines::push_refl;
use larch_prove_invariant::from_methods::open_subgoal;
use larch_prove_invariant::from_prove_plans::{Subgoal, formula};
use larch_term::{Term, copy};
use std::alloc::Global;

/// How the lowest level begins: the box of a clause; the lines of the hypotheses that are supposed there, in order; the
/// level's first goal; and the line that says that this equals itself.
#[derive(Drop)]
pub struct Beginning {
    pub entrance: Option<OpenBox>,
    pub hypotheses: Numbers,
    pub first: Term,
    pub way: u64,
}

/// Begins the lowest level for an equation: its goal is the equation's formula. The equation is well sorted over the
/// theory and in words. A refused call may leave a line behind.
pub fn begin_equation(
    alloc: Global,
    builder: &mut Builder,
    left: &Term,
    right: &Term,
) -> Result<Beginning, Memory>
    ensures { IfOk result (λ m. (t : IsTheory) → IsStart t builder.old
        → IsStatementOver t.operators (Equation left.now right.now)
        → IsWordedStatement (Equation left.now right.now)
        → IsBegun builder.old builder.new (Equation left.now right.now) m) }
{
    let left = copy(alloc, left)?;
    let right = copy(alloc, right)?;
    let first = formula(alloc, left, right)?;
    let way = push_refl(builder, &first)?;
    Ok(Beginning {
        entrance: None,
        hypotheses: Sequence::new(alloc),
        first,
        way,
    })
}

/// Begins the lowest level for a clause, by what has to be shown of it: opens its box, in which the new predicate or
/// constants stand, and says what is supposed there. The clause is well sorted over the theory and in words, and the
/// names of what is new aren't the theory's. A refused call may leave the box open.
pub fn begin_clause(
    alloc: Global,
    builder: &mut Builder,
    subgoal: &Subgoal,
) -> Result<Beginning, Memory>
    ensures first { IfOk result (λ m. m.first ≡ subgoal.now.goal) }
    ensures generation { IfOk result (λ m. (t : IsTheory) (n z : List ℕ) (fs : List PlainOperator)
        → IsStart t builder.old → subgoal.now ≡ generation_goal n z fs → AreNew t subgoal.now.constants
        → IsStatementOver t.operators (Generated z fs) → IsWordedStatement (Generated z fs)
        → IsBegun builder.old builder.new (Generated z fs) m) }
    ensures partition { IfOk result (λ m. (t : IsTheory) (n p z : List ℕ) (os : List PlainOperator)
        → IsStart t builder.old → subgoal.now ≡ partition_goal n p z os → n ≢ p → AreNew t subgoal.now.constants
        → IsStatementOver t.operators (Partitioned z os) → IsWordedStatement (Partitioned z os)
        → IsBegun builder.old builder.new (Partitioned z os) m) }
{
    let first = copy(alloc, &subgoal.goal)?;
    let opened = open_subgoal(alloc, builder, subgoal)?;
    let way = push_refl(builder, &first)?;
    let hypotheses = push_hypotheses(alloc, builder, opened.number, &subgoal.hypotheses)?;
    Ok(Beginning {
        entrance: Some(opened),
        hypotheses,
        first,
        way,
    })
}
