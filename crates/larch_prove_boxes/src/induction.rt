ghost use Rattle.std.specs.Prelude.{◌≡◌, ◌∷◌, bytes_eq, find, Option, None, Some, option_map, IfOk, OnOk};
ghost use Rattle.std.specs.List.{slice_get};
ghost use Rattle.larch_derive.specs.Builder.{theory_in};
ghost use Rattle.larch_derive.specs.Predicates.{Grows, HasEquation};
ghost use Rattle.larch_derive.specs.declared.builder.Builder.{Builder as Built};
ghost use Rattle.larch_derive.specs.declared.open_box.OpenBox.{OpenBox};
ghost use Rattle.larch_prove_boxes.specs.Ends.{AreLeft};
ghost use Rattle.larch_prove_invariant.specs.ProveMeaningPlans.{Induction, generators};
ghost use Rattle.larch_term.specs.Statement.{IsWellSortedTheory, statement_zero};
ghost use Rattle.larch_term.specs.Truth.{truth};
ghost use Rattle.larch_term.specs.Variable.{variables_of};
ghost use Rattle.larch_term.specs.declared.statement.Statement.TheVariants.{Generated};

use crate::leave::Leave;
use crate::lefts::numbers_of;
use larch_base::{Memory, Name};
use larch_derive::Builder;
use larch_prove_invariant::from_methods::finish_induction;
use larch_prove_invariant::from_prove_plans::{generating_clause, induction_variable};
use larch_term::{Sort, Statement, Term, Theory, Variable};
use std::alloc::Global;

// A line that says that the goal is true, by induction on the first variable with a name, by the first clause of the
// builder's theory that generates its sort.
pub(crate) fn end_induction(
    alloc: Global,
    builder: &mut Builder,
    theory: &Theory,
    name: &Name,
    goal: &Term,
    lefts: &[Leave],
) -> Result<u64, Memory>
    requires left { (a : Built) × ((x : Option OpenBox)
        × AreLeft a builder.old (Induction name.now) goal.now x lefts.now) }
    requires theory { theory.now ≡ theory_in builder.old }
    requires sorted { IsWellSortedTheory theory.now }
    ensures says { IfOk result (λ n. (a : Built) (x : Option OpenBox)
        → AreLeft a builder.old (Induction name.now) goal.now x lefts.now
        → HasEquation builder.new n goal.now truth) }
    ensures grows { OnOk result ((a : Built) (x : Option OpenBox)
        → AreLeft a builder.old (Induction name.now) goal.now x lefts.now → Grows a builder.new) }
{
    let variable = variable_named(alloc, goal, name)?;
    let clause = clause_for(theory.statements.as_slice(), &variable.sort);
    let boxes = numbers_of(alloc, lefts)?;
    finish_induction(alloc, builder, clause, &variable, goal, boxes)
}

// The first variable of a term that has a name.
fn variable_named(alloc: Global, term: &Term, name: &Name) -> Result<Variable, Memory>
    requires { find (λ v. bytes_eq v.name name.now) (variables_of term.now) ≡ None → ⊥ }
    ensures { IfOk result (λ v. find (λ v. bytes_eq v.name name.now) (variables_of term.now) ≡ Some v) }
{
    match induction_variable(alloc, term, name)? {
        Some(variable) => Ok(variable),
        None => unreachable!(),
    }
}

// The number of the first clause that generates a sort.
fn clause_for(statements: &[Statement], sort: &Sort) -> u64
    requires { generators sort.now (statement_zero ∷ statements.now) ≡ None → ⊥ }
    ensures { slice_get (statement_zero ∷ statements.now) result
        ≡ option_map (Generated sort.now) (generators sort.now (statement_zero ∷ statements.now)) }
{
    match generating_clause(statements, sort) {
        Some(number) => number,
        None => unreachable!(),
    }
}
