ghost use Rattle.std.specs.Prelude.{◌≡◌, ◌∷◌, [], None, Some, option_map, position, IfNone, IfOk, IfSome};
ghost use Rattle.std.specs.List.{position_from, slice_get};
ghost use Rattle.larch_prove_plans.specs.ClauseGoals.{generates, partitions};
ghost use Rattle.larch_prove_meaning.specs.Plans.{generators, observers};
ghost use Rattle.larch_term.specs.BuiltIn.{bool_sort, built_in};
ghost use Rattle.larch_term.specs.Statement.{statement_zero};
ghost use Rattle.larch_term.specs.declared.statement.Statement.TheVariants.{Generated, Partitioned};

use larch_base::{Memory, Sequence};
use larch_term::{BuiltIn, Operators, Sort, Statement, bool_sort, copy_operators};
use std::alloc::Global;

// The generators of a sort: of the truth values they are true and false; of others they stand in the first clause that
// has the sort.
pub(crate) fn generators(
    alloc: Global,
    statements: &[Statement],
    sort: &Sort,
) -> Result<Option<Operators>, Memory>
    ensures { IfOk result (λ fs. fs ≡ generators sort.now (statement_zero ∷ statements.now)) }
{
    if b"Bool".as_slice() == sort.bytes() {
        let values = truth_values(alloc)?;
        return Ok(Some(values));
    }
    match stated_generators(statements, sort) {
        Some(stated) => {
            let generators = copy_operators(alloc, stated.as_slice())?;
            Ok(Some(generators))
        }
        None => Ok(None),
    }
}

fn truth_values(alloc: Global) -> Result<Operators, Memory>
    ensures { IfOk result (λ fs. fs
        ≡ built_in BuiltIn.True bool_sort ∷ built_in BuiltIn.False bool_sort ∷ []) }
{
    let sort = bool_sort(alloc)?;
    let truth = BuiltIn::True.operator(alloc, &sort)?;
    let falsity = BuiltIn::False.operator(alloc, &sort)?;
    let mut values = Sequence::new(alloc);
    values.push(truth)?;
    values.push(falsity)?;
    Ok(values)
}

fn stated_generators<'a>(statements: &'a [Statement], sort: &Sort) -> Option<&'a Operators>
    ensures { option_map (λ fs. fs.now) result ≡ generators sort.now statements.now }
{
    for statement in statements {
        if let Statement::Generated(generated, operators) = statement {
            if *generated == *sort {
                return Some(operators);
            }
        }
    }
    None
}

/// The number of the first clause that generates a sort: 0 of the truth values, others counted from 1. `None` exactly
/// where no clause has the sort.
pub fn generating_clause(statements: &[Statement], sort: &Sort) -> Option<u64>
    ensures first { result ≡ position (generates sort.now) (statement_zero ∷ statements.now) }
    ensures clause { IfSome result (λ k. slice_get (statement_zero ∷ statements.now) k
        ≡ option_map (Generated sort.now) (generators sort.now (statement_zero ∷ statements.now))) }
    ensures none { IfNone result (generators sort.now (statement_zero ∷ statements.now) ≡ None) }
{
    if b"Bool".as_slice() == sort.bytes() {
        return Some(0);
    }
    match stated_clause(statements, sort) {
        Some(number) => Some(number),
        None => None,
    }
}

// The number of the first statement that says that a sort is generated, counted from 1.
fn stated_clause(statements: &[Statement], sort: &Sort) -> Option<u64>
    ensures first { result ≡ position_from (generates sort.now) 1 statements.now }
    ensures clause { IfSome result (λ k. slice_get (statement_zero ∷ statements.now) k
        ≡ option_map (Generated sort.now) (generators sort.now statements.now)) }
    ensures none { IfNone result (generators sort.now statements.now ≡ None) }
{
    let mut number = 1;
    for statement in statements {
        if generates(statement, sort) {
            return Some(number);
        }
        number += 1;
    }
    None
}

// Whether a statement says that a sort is generated.
fn generates(statement: &Statement, sort: &Sort) -> bool
    ensures { result ≡ generates sort.now statement.now }
{
    match statement {
        Statement::Generated(generated, _) => *generated == *sort,
        _ => false,
    }
}

/// The number of the first clause that partitions a sort, counted from 1. `None` exactly where no clause has the sort.
pub fn partitioning_clause(statements: &[Statement], sort: &Sort) -> Option<u64>
    ensures first { result ≡ position (partitions sort.now) (statement_zero ∷ statements.now) }
    ensures clause { IfSome result (λ k. slice_get (statement_zero ∷ statements.now) k
        ≡ option_map (Partitioned sort.now) (observers sort.now (statement_zero ∷ statements.now))) }
    ensures none { IfNone result (observers sort.now (statement_zero ∷ statements.now) ≡ None) }
{
    let mut number = 1;
    for statement in statements {
        if partitions(statement, sort) {
            return Some(number);
        }
        number += 1;
    }
    None
}

// Whether a statement says that a sort is partitioned.
fn partitions(statement: &Statement, sort: &Sort) -> bool
    ensures { result ≡ partitions sort.now statement.now }
{
    match statement {
        Statement::Partitioned(partitioned, _) => *partitioned == *sort,
        _ => false,
    }
}

// The observers of a sort, by the first clause that has it.
pub(crate) fn observers<'a>(statements: &'a [Statement], sort: &Sort) -> Option<&'a Operators>
    ensures { option_map (λ fs. fs.now) result ≡ observers sort.now statements.now }
{
    for statement in statements {
        if let Statement::Partitioned(partitioned, operators) = statement {
            if *partitioned == *sort {
                return Some(operators);
            }
        }
    }
    None
}
