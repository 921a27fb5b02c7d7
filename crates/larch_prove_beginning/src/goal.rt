ghost use Rattle.std.specs.Prelude.{◌≡◌, ◌∷◌, ℕ, List, IfOk};
ghost use Rattle.larch_prove_beginning.specs.Goal.{IsPosed, MayPose, generation_for, partition_for, goal_of};
ghost use Rattle.larch_prove_beginning.specs.Goal.{scope_with, taken_by};
ghost use Rattle.larch_prove_meaning.specs.NewNames.{free_name};
ghost use Rattle.larch_term.specs.Operator.{PlainOperator};
ghost use Rattle.larch_term.specs.declared.statement.Statement.TheVariants.{Equation, Generated, Partitioned};
ghost use Rattle.larch_term.specs.declared.statement.Theory.{Theory as is_theory};

use crate::hypotheses::said_equations;
use crate::names::names_of;
use larch_base::{Memory, Name, Sequence};
use larch_derive::Builder;
use larch_prove_opening::from_prove_adding::SaidEquation;
use larch_prove_opening::from_prove_plans::{Subgoal, free_name, generation_goal, partition_goal};
use larch_prove_settings::OrderedScope;
use larch_prove_settling::from_prove_boxes::{Beginning, begin_clause, begin_equation};
use larch_term::{Operator, Operators, Sort, Statement, Term, Theory, copy_operators, variables};
use std::alloc::Global;

/// How the lowest level begins, with the equations that are supposed there; the constants that are made for it, and the
/// variables that are then in scope.
#[derive(Drop)]
pub(crate) struct FirstGoal {
    pub(crate) beginning: Beginning,
    pub(crate) hypotheses: Vec<SaidEquation>,
    pub(crate) constants: Operators,
    pub(crate) scope: OrderedScope,
}

// The goal of a statement over a theory. New names avoid those of the theory's operators and of the variables in scope.
pub(crate) fn make_goal(
    alloc: Global,
    builder: &mut Builder,
    theory: &Theory,
    statement: &Statement,
    scope: &OrderedScope,
) -> Result<FirstGoal, Memory>
    ensures { IfOk result (λ f. MayPose theory.now builder.old statement.now (taken_by theory.now scope.now)
        → IsPosed theory.now builder.old builder.new statement.now
        (goal_of statement.now (taken_by theory.now scope.now) scope.now) f) }
{
    let names = taken_names(alloc, theory, scope)?;
    let taken = names.as_slice();
    match statement {
        Statement::Equation(left, right) => make_equation(alloc, builder, left, right, scope),
        Statement::Generated(sort, operators) => {
            let generators = operators.as_slice();
            let clause = Clause {
                sort,
                operators: generators,
            };
            make_generation(alloc, builder, taken, &clause, scope)
        }
        Statement::Partitioned(sort, operators) => {
            let observers = operators.as_slice();
            let clause = Clause {
                sort,
                operators: observers,
            };
            make_partition(alloc, builder, taken, &clause, scope)
        }
    }
}

// The names that are taken before a duty opens.
fn taken_names(alloc: Global, theory: &Theory, scope: &OrderedScope) -> Result<Vec<Name>, Memory>
    ensures { IfOk result (λ names. names.items ≡ taken_by theory.now scope.now) }
{
    names_of(alloc, theory.operators.as_slice(), scope.variables())
}

// The goal of an equation is its formula, and its variables come into scope before those that were there.
fn make_equation(
    alloc: Global,
    builder: &mut Builder,
    left: &Term,
    right: &Term,
    scope: &OrderedScope,
) -> Result<FirstGoal, Memory>
    ensures { IfOk result (λ f. (t : is_theory) (taken : List (List ℕ))
        → MayPose t builder.old (Equation left.now right.now) taken
        → IsPosed t builder.old builder.new (Equation left.now right.now)
        (goal_of (Equation left.now right.now) taken scope.now) f) }
{
    let scope = scope_with(alloc, left, right, scope)?;
    let beginning = begin_equation(alloc, builder, left, right)?;
    Ok(FirstGoal {
        beginning,
        hypotheses: Vec::new(alloc),
        constants: Sequence::new(alloc),
        scope,
    })
}

// A clause, by its sort and its operators.
#[derive(Drop)]
struct Clause<'a> {
    sort: &'a Sort,
    operators: &'a [Operator],
}

// The goal of a generation clause: a new predicate holds of a variable.
fn make_generation(
    alloc: Global,
    builder: &mut Builder,
    taken: &[Name],
    clause: &Clause<'_>,
    scope: &OrderedScope,
) -> Result<FirstGoal, Memory>
    ensures { IfOk result (λ f. (t : is_theory)
        → MayPose t builder.old (Generated clause.now.sort.now clause.now.operators.now) taken.now
        → IsPosed t builder.old builder.new (Generated clause.now.sort.now clause.now.operators.now)
        (goal_of (Generated clause.now.sort.now clause.now.operators.now) taken.now scope.now) f) }
{
    let name = free_name(alloc, taken, b"gen")?;
    let subgoal = generation_goal(alloc, &name, clause.sort, clause.operators)?;
    make_clause(alloc, builder, &subgoal, scope)
}

// The goal of a partition clause: two new constants are equal.
fn make_partition(
    alloc: Global,
    builder: &mut Builder,
    taken: &[Name],
    clause: &Clause<'_>,
    scope: &OrderedScope,
) -> Result<FirstGoal, Memory>
    ensures { IfOk result (λ f. (t : is_theory)
        → MayPose t builder.old (Partitioned clause.now.sort.now clause.now.operators.now) taken.now
        → IsPosed t builder.old builder.new (Partitioned clause.now.sort.now clause.now.operators.now)
        (goal_of (Partitioned clause.now.sort.now clause.now.operators.now) taken.now scope.now) f) }
{
    let first = free_name(alloc, taken, b"lc")?;
    let second = name_beside(alloc, &first, taken, b"rc")?;
    let subgoal = partition_goal(alloc, &first, &second, clause.sort, clause.operators)?;
    make_clause(alloc, builder, &subgoal, scope)
}

// The first of a word, the word with 1, with 2, .. that is neither a name nor among others.
fn name_beside(alloc: Global, name: &Name, taken: &[Name], word: &[u8]) -> Result<Name, Memory>
    ensures { IfOk result (λ n. n ≡ free_name (name.now ∷ taken.now) word.now) }
{
    let names = names_with(alloc, name, taken)?;
    free_name(alloc, names.as_slice(), word)
}

// A name before others.
fn names_with(alloc: Global, name: &Name, others: &[Name]) -> Result<Vec<Name>, Memory>
    ensures { IfOk result (λ names. names.items ≡ name.now ∷ others.now) }
{
    let mut names = Vec::with_capacity(alloc, others.len())?;
    let copied = name.copy()?;
    names.push(copied)?;
    for other in others {
        let copied = other.copy()?;
        names.push(copied)?;
    }
    Ok(names)
}

// What has to be shown of a clause, in its box.
fn make_clause(
    alloc: Global,
    builder: &mut Builder,
    subgoal: &Subgoal,
    scope: &OrderedScope,
) -> Result<FirstGoal, Memory>
    ensures generation { IfOk result (λ f. (t : is_theory) (taken : List (List ℕ)) (s : List ℕ)
        (fs : List PlainOperator) → subgoal.now ≡ generation_for taken s fs
        → MayPose t builder.old (Generated s fs) taken
        → IsPosed t builder.old builder.new (Generated s fs) (goal_of (Generated s fs) taken scope.now) f) }
    ensures partition { IfOk result (λ f. (t : is_theory) (taken : List (List ℕ)) (s : List ℕ)
        (os : List PlainOperator) → subgoal.now ≡ partition_for taken s os
        → MayPose t builder.old (Partitioned s os) taken
        → IsPosed t builder.old builder.new (Partitioned s os) (goal_of (Partitioned s os) taken scope.now) f) }
{
    let beginning = begin_clause(alloc, builder, subgoal)?;
    let hypotheses = said_equations(
        alloc,
        subgoal.hypotheses.as_slice(),
        beginning.hypotheses.as_slice(),
    )?;
    let constants = copy_operators(alloc, subgoal.constants.as_slice())?;
    let scope = scope.copy(alloc)?;
    Ok(FirstGoal {
        beginning,
        hypotheses,
        constants,
        scope,
    })
}

// The variables of an equation, each name as it comes first, before those that were in scope.
fn scope_with(
    alloc: Global,
    left: &Term,
    right: &Term,
    scope: &OrderedScope,
) -> Result<OrderedScope, Memory>
    ensures { IfOk result (λ all. all ≡ scope_with left.now right.now scope.now) }
{
    let mut all = OrderedScope::new(alloc);
    let of_left = variables(alloc, left)?;
    all.insert_all(of_left.as_slice())?;
    let of_right = variables(alloc, right)?;
    all.insert_all(of_right.as_slice())?;
    all.insert_all(scope.variables())?;
    Ok(all)
}
