ghost use Rattle.std.specs.Prelude.{◌≡◌, ◌∷◌, Option, None, Some, option_map, IfOk, OnOk};
ghost use Rattle.std.specs.List.{slice_get};
ghost use Rattle.larch_derive.specs.Builder.{theory_in};
ghost use Rattle.larch_derive.specs.Predicates.{Grows, HasEquation};
ghost use Rattle.larch_derive.specs.declared.builder.Builder.{Builder as Built};
ghost use Rattle.larch_derive.specs.declared.open_box.OpenBox.{OpenBox};
ghost use Rattle.larch_prove_boxes.specs.Ends.{AreLeft};
ghost use Rattle.larch_prove_invariant.specs.ProveMeaningPlans.{Partition, observers, two_arguments};
ghost use Rattle.larch_prove_invariant.specs.ProvePlansShapes.{parts_of};
ghost use Rattle.larch_term.specs.BuiltIn.{is_built_in_as};
ghost use Rattle.larch_term.specs.Statement.{IsWellSortedTheory, statement_zero};
ghost use Rattle.larch_term.specs.Tree.{Tree};
ghost use Rattle.larch_term.specs.Truth.{truth};
ghost use Rattle.larch_term.specs.declared.built_in.BuiltIn.TheVariants.{Equal};
ghost use Rattle.larch_term.specs.declared.statement.Statement.TheVariants.{Partitioned};

use crate::equality::push_equality;
use crate::leave::Leave;
use crate::lefts::boxes_of;
use larch_base::Memory;
use larch_derive::Builder;
use larch_prove_invariant::from_methods::finish_partition;
use larch_prove_invariant::from_prove_plans::{BinaryTerm, equality_in, partitioning_clause};
use larch_term::{Sort, Statement, Term, Theory, sort_of};
use std::alloc::Global;

// A line that says that an equality is true, by the first clause of the builder's theory that partitions the sort of
// its sides.
pub(crate) fn end_partition(
    alloc: Global,
    builder: &mut Builder,
    theory: &Theory,
    goal: &Term,
    lefts: &[Leave],
) -> Result<u64, Memory>
    requires left { (a : Built) × ((x : Option OpenBox) × AreLeft a builder.old Partition goal.now x lefts.now) }
    requires theory { theory.now ≡ theory_in builder.old }
    requires sorted { IsWellSortedTheory theory.now }
    ensures says { IfOk result (λ n. (a : Built) (x : Option OpenBox)
        → AreLeft a builder.old Partition goal.now x lefts.now → HasEquation builder.new n goal.now truth) }
    ensures grows { OnOk result ((a : Built) (x : Option OpenBox)
        → AreLeft a builder.old Partition goal.now x lefts.now → Grows a builder.new) }
{
    let sides = sides_of(alloc, goal)?;
    let line = push_same(alloc, builder, theory, &sides, lefts)?;
    push_equality(alloc, builder, sides.left, line)
}

// The sides of an equality.
fn sides_of<'a>(alloc: Global, term: &'a Term) -> Result<BinaryTerm<'a>, Memory>
    requires { two_arguments (λ f. is_built_in_as f Equal) term.now ≡ None → ⊥ }
    ensures { IfOk result (λ p. two_arguments (λ f. is_built_in_as f Equal) term.now ≡ Some (parts_of p)) }
{
    match equality_in(alloc, term)? {
        Some(sides) => Ok(sides),
        None => unreachable!(),
    }
}

// A line that says that both sides of the goal are equal.
fn push_same<'a>(
    alloc: Global,
    builder: &mut Builder,
    theory: &Theory,
    sides: &BinaryTerm<'a>,
    lefts: &[Leave],
) -> Result<u64, Memory>
    requires left { (a : Built) × ((g : Tree) × ((x : Option OpenBox)
        × ((two_arguments (λ f. is_built_in_as f Equal) g ≡ Some (parts_of sides.now))
        × AreLeft a builder.old Partition g x lefts.now))) }
    requires theory { theory.now ≡ theory_in builder.old }
    requires sorted { IsWellSortedTheory theory.now }
    ensures says { IfOk result (λ n. (a : Built) (g : Tree) (x : Option OpenBox)
        → two_arguments (λ f. is_built_in_as f Equal) g ≡ Some (parts_of sides.now)
        → AreLeft a builder.old Partition g x lefts.now
        → HasEquation builder.new n sides.now.left.now sides.now.right.now) }
    ensures grows { OnOk result ((a : Built) (g : Tree) (x : Option OpenBox)
        → two_arguments (λ f. is_built_in_as f Equal) g ≡ Some (parts_of sides.now)
        → AreLeft a builder.old Partition g x lefts.now → Grows a builder.new) }
{
    let clause = clause_for(theory.statements.as_slice(), sort_of(sides.left));
    let boxes = boxes_of(alloc, lefts)?;
    finish_partition(
        alloc,
        builder,
        clause,
        sides.left,
        sides.right,
        boxes.as_slice(),
    )
}

// The number of the first clause that partitions a sort.
fn clause_for(statements: &[Statement], sort: &Sort) -> u64
    requires { observers sort.now (statement_zero ∷ statements.now) ≡ None → ⊥ }
    ensures { slice_get (statement_zero ∷ statements.now) result
        ≡ option_map (Partitioned sort.now) (observers sort.now (statement_zero ∷ statements.now)) }
{
    match partitioning_clause(statements, sort) {
        Some(number) => number,
        None => unreachable!(),
    }
}
