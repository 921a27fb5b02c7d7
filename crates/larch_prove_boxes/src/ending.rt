ghost use Rattle.std.specs.Prelude.{◌≡◌, List, option_map, IfOk, OnOk};
ghost use Rattle.larch_derive.specs.Builder.{theory_in};
ghost use Rattle.larch_derive.specs.Predicates.{HasEquation};
ghost use Rattle.larch_derive.specs.declared.builder.Builder.{Builder as Built};
ghost use Rattle.larch_prove_boxes.specs.Ends.{AreLeft};
ghost use Rattle.larch_prove_invariant.specs.Book.{Kept};
ghost use Rattle.larch_prove_invariant.specs.Ending.{StandsAt};
ghost use Rattle.larch_prove_invariant.specs.ProvePlansPlanning.{method_of};
ghost use Rattle.larch_term.specs.Statement.{IsWellSortedTheory};
ghost use Rattle.larch_term.specs.Truth.{truth};
ghost use Rattle.larch_term.specs.declared.statement.Statement.{Statement};
ghost use Rattle.larch_term.specs.declared.statement.Theory.{Theory as states};

use crate::cases::end_cases;
use crate::conjunction::end_conjunction;
use crate::contradiction::end_contradiction;
use crate::implication::end_implication;
use crate::induction::end_induction;
use crate::leave::Leave;
use crate::partition::end_partition;
use larch_base::Memory;
use larch_derive::{Builder, OpenBox};
use larch_prove_invariant::from_prove_plans::Method;
use larch_term::{Term, Theory};
use std::alloc::Global;

/// What was left of a method's subgoals: the box that they share, if they share one, and how each of them was left, in
/// order.
#[derive(Drop)]
pub struct Lefts<'a> {
    pub shared: Option<&'a OpenBox>,
    pub subgoals: &'a [Leave],
}

/// A line that says that the goal of a method is true, all subgoals of which were left so, inside of the box that they
/// share; that box is closed. The theory is the builder's. A refused call may leave lines behind.
pub fn end_method<'a>(
    alloc: Global,
    builder: &mut Builder,
    theory: &Theory,
    method: &Method,
    goal: &Term,
    lefts: &Lefts<'a>,
) -> Result<u64, Memory>
    requires left { (a : Built) × AreLeft a builder.old (method_of method.now) goal.now
        (option_map (λ x. x.now) lefts.now.shared) lefts.now.subgoals.now }
    requires theory { theory.now ≡ theory_in builder.old }
    requires sorted { IsWellSortedTheory theory.now }
    ensures says { IfOk result (λ n. HasEquation builder.new n goal.now truth) }
    ensures stands { OnOk result ((t : states) (s : Statement) (a : Built) (k : Kept) (ks : List Kept)
        → AreLeft a builder.old (method_of method.now) goal.now (option_map (λ x. x.now) lefts.now.shared)
        lefts.now.subgoals.now → StandsAt t s a k ks → StandsAt t s builder.new k ks) }
{
    let subgoals = lefts.subgoals;
    match method {
        Method::Cases(formula) => end_cases(alloc, builder, formula, lefts.shared, subgoals),
        Method::Implication => end_implication(alloc, builder, goal, lefts.shared, subgoals),
        Method::Conjunction => end_conjunction(alloc, builder, goal, subgoals),
        Method::Contradiction => end_contradiction(alloc, builder, goal, lefts.shared, subgoals),
        Method::Induction(name) => end_induction(alloc, builder, theory, name, goal, subgoals),
        Method::Partition => end_partition(alloc, builder, theory, goal, subgoals),
    }
}
