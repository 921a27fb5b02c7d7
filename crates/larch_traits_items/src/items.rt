ghost use Rattle.std.specs.Prelude.{◌≡◌, IfOk, IfSome};
ghost use Rattle.larch_base.specs.Answering.{Answers};
ghost use Rattle.larch_sorts.specs.SortsMeaningRead.{read_equation};
ghost use Rattle.larch_traits_items.specs.Index.{IsIndex};
ghost use Rattle.larch_traits_items.specs.Items.{clause_statement, clause_states, equations_state};
ghost use Rattle.larch_traits_items.specs.Items.{item_states, items_state};
ghost use Rattle.larch_traits_items.specs.Refusal.{cause};
ghost use Rattle.larch_base_meaning.specs.Steps.{each};

use crate::append::append;
use crate::index::Index;
use crate::references::find_operators;
use crate::refusal::TraitRefusal;
use crate::variables::declare_variables;
use larch_base::{Code, Memory, Sequence};
use larch_raw::{ClauseKind, RawEquation, RawItem, RawOpRef, RawVar, RawWord};
use larch_sorts::from_sorts_meaning::{ReadRefusal, Scope};
use larch_sorts::from_sorts_signature::Signature;
use larch_sorts::read_in;
use larch_term::{Operators, Sort, Statement, Statements};
use std::alloc::Global;

// So many references of clauses go through all operators, more find theirs by an index.
const FEW: usize = 8;

/// What items state over the operators of a signature, in order, or what is wrong with them first.
pub fn state_items(
    alloc: Global,
    signature: &Signature,
    items: &[RawItem],
) -> Result<Statements, TraitRefusal>
    ensures { Answers cause result (items_state signature.now items.now) }
{
    match index_for(alloc, signature, items)? {
        None => {
            let statements = state_items_by(alloc, signature, None, items)?;
            Ok(statements)
        }
        Some(index) => {
            let statements = state_items_by(alloc, signature, Some(&index), items)?;
            Ok(statements)
        }
    }
}

// The same by an index of the signature where there is one.
fn state_items_by(
    alloc: Global,
    signature: &Signature,
    index: Option<&Index>,
    items: &[RawItem],
) -> Result<Statements, TraitRefusal>
    requires { IfSome index (λ i. IsIndex i.now signature.now) }
    ensures { Answers cause result (items_state signature.now items.now) }
{
    let mut statements = Sequence::new(alloc);
    for item in items {
        let more = state_item_by(alloc, signature, index, item)?;
        statements = append(statements, more)?;
    }
    Ok(statements)
}

/// What an item states over the operators of a signature. `Wrong` has UNKNOWN-SORT at the sort of a clause, or else
/// GENERATOR or PARTITION at one of its references; of an item of equations it has UNKNOWN-SORT or VARIABLE-TWICE at a
/// variable, or else UNKNOWN-SORT, NO-READING or AMBIGUOUS in an equation.
pub fn state_item(
    alloc: Global,
    signature: &Signature,
    item: &RawItem,
) -> Result<Statements, TraitRefusal>
    ensures { Answers cause result (item_states signature.now item.now) }
{
    let statements = state_item_by(alloc, signature, None, item)?;
    Ok(statements)
}

// An index of a signature, where items have many references.
fn index_for(
    alloc: Global,
    signature: &Signature,
    items: &[RawItem],
) -> Result<Option<Index>, Memory>
    ensures { IfOk result (λ index. IfSome index (λ i. IsIndex i signature.now)) }
{
    if references_in(items) <= FEW {
        return Ok(None);
    }
    let index = Index::of(alloc, signature.operators())?;
    Ok(Some(index))
}

// How many references the clauses among items have.
fn references_in(items: &[RawItem]) -> usize {
    let mut count = 0usize;
    for item in items {
        if let RawItem::Clause(_, _, refs) = item {
            count = count.saturating_add(refs.as_slice().len());
        }
    }
    count
}

// What an item states, by an index of the signature where there is one.
fn state_item_by(
    alloc: Global,
    signature: &Signature,
    index: Option<&Index>,
    item: &RawItem,
) -> Result<Statements, TraitRefusal>
    requires { IfSome index (λ i. IsIndex i.now signature.now) }
    ensures { Answers cause result (item_states signature.now item.now) }
{
    match item {
        RawItem::Clause(kind, sort, refs) => {
            let statement = state_clause(alloc, signature, index, *kind, sort, refs.as_slice())?;
            let mut statements = Sequence::new(alloc);
            statements.push(statement)?;
            Ok(statements)
        }
        RawItem::Equations(variables, equations) => state_equations(
            alloc,
            signature,
            variables.as_slice(),
            equations.as_slice(),
        ),
    }
}

// What a clause states.
fn state_clause(
    alloc: Global,
    signature: &Signature,
    index: Option<&Index>,
    kind: ClauseKind,
    sort: &RawWord,
    refs: &[RawOpRef],
) -> Result<Statement, TraitRefusal>
    requires { IfSome index (λ i. IsIndex i.now signature.now) }
    ensures { Answers cause result (clause_states signature.now kind sort.now refs.now) }
{
    if !signature.knows(&sort.name) {
        return Err(TraitRefusal::Wrong(sort.pos, Code::UnknownSort));
    }
    let named = find_operators(alloc, signature, index, kind, &sort.name, refs)?;
    let sort = sort.name.copy()?;
    Ok(statement_of(kind, sort, named))
}

// The statement of a clause with these operators.
fn statement_of(kind: ClauseKind, sort: Sort, named: Operators) -> Statement
    ensures { result ≡ clause_statement kind sort named }
{
    match kind {
        ClauseKind::Generated => Statement::Generated(sort, named),
        ClauseKind::Partitioned => Statement::Partitioned(sort, named),
    }
}

// What an item of equations states.
fn state_equations(
    alloc: Global,
    signature: &Signature,
    variables: &[RawVar],
    equations: &[RawEquation],
) -> Result<Statements, TraitRefusal>
    ensures { Answers cause result (equations_state signature.now variables.now equations.now) }
{
    let scope = declare_variables(alloc, signature, variables)?;
    let statements = read_equations(alloc, signature, &scope, equations)?;
    Ok(statements)
}

// What equations state with variables in scope.
fn read_equations(
    alloc: Global,
    signature: &Signature,
    scope: &Scope,
    equations: &[RawEquation],
) -> Result<Statements, TraitRefusal>
    ensures { Answers cause result (each (read_equation signature.now scope.now) equations.now) }
{
    let mut statements = Sequence::new(alloc);
    for equation in equations {
        let statement = read_statement(alloc, signature, scope, equation)?;
        statements.push(statement)?;
    }
    Ok(statements)
}

// What one equation states.
fn read_statement(
    alloc: Global,
    signature: &Signature,
    scope: &Scope,
    equation: &RawEquation,
) -> Result<Statement, TraitRefusal>
    ensures { Answers cause result (read_equation signature.now scope.now equation.now) }
{
    match read_in(alloc, signature, scope, equation) {
        Ok(statement) => Ok(statement),
        Err(ReadRefusal::UnknownSort(pos)) => Err(TraitRefusal::Wrong(pos, Code::UnknownSort)),
        Err(ReadRefusal::NoReading(pos)) => Err(TraitRefusal::Wrong(pos, Code::NoReading)),
        Err(ReadRefusal::Ambiguous(pos)) => Err(TraitRefusal::Wrong(pos, Code::Ambiguous)),
        Err(ReadRefusal::Memory) => Err(TraitRefusal::Memory),
    }
}
