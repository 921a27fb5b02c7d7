ghost use Rattle.std.specs.Prelude.{◌≡◌, List, IfOk, IfSome, find};
ghost use Rattle.std.specs.Option.{option_copied};
ghost use Rattle.larch_base.specs.Answering.{Answers};
ghost use Rattle.larch_term.specs.Operator.{PlainOperator};
ghost use Rattle.larch_traits_items.specs.Index.{IsIndex};
ghost use Rattle.larch_traits_items.specs.References.{all_same, clause_code, is_meant, is_wanted, only_operator};
ghost use Rattle.larch_traits_items.specs.References.{operator_named, operators_named, suits, takes, wanted_of};
ghost use Rattle.larch_traits_items.specs.Refusal.{cause};

use crate::declarations::operator_of;
use crate::index::{Index, key_of, only_seen};
use crate::refusal::TraitRefusal;
use larch_base::{Code, Memory, Name, Sequence};
use larch_raw::{ClauseKind, RawOpRef};
use larch_sorts::from_sorts_signature::Signature;
use larch_term::{Operator, Operators, Sort};
use std::alloc::Global;

/// What a reference of a clause is looked for as: the clause's kind and sort, the reference's name, and the one
/// operator that it means where it has a signature.
pub(crate) struct Wanted {
    kind: ClauseKind,
    sort: Sort,
    name: Name,
    exact: Option<Operator>,
}

// By a call, so that a proof takes one apart in one place alone.
impl Drop for Wanted {
    fn drop(self) {
        let Wanted {
            kind: _kind,
            sort: _sort,
            name: _name,
            exact: _exact,
        } = self;
    }
}

// The operators that the references of a clause name, in order, by an index of the signature where there is one.
pub(crate) fn find_operators(
    alloc: Global,
    signature: &Signature,
    index: Option<&Index>,
    kind: ClauseKind,
    sort: &Sort,
    refs: &[RawOpRef],
) -> Result<Operators, TraitRefusal>
    requires { IfSome index (λ i. IsIndex i.now signature.now) }
    ensures { Answers cause result (operators_named signature.now kind sort.now refs.now) }
{
    let mut named = Sequence::new(alloc);
    for reference in refs {
        let operator = find_operator_by(alloc, signature, index, kind, sort, reference)?;
        named.push(operator)?;
    }
    Ok(named)
}

/// The one operator that a reference names among those that suit a clause of this sort: a generator has the sort as
/// its range, an observer has it in its domain. `Wrong` has GENERATOR or PARTITION at the reference where none does,
/// or several different ones do.
pub fn find_operator(
    alloc: Global,
    signature: &Signature,
    kind: ClauseKind,
    sort: &Sort,
    reference: &RawOpRef,
) -> Result<Operator, TraitRefusal>
    ensures { Answers cause result (operator_named signature.now kind sort.now reference.now) }
{
    let operator = find_operator_by(alloc, signature, None, kind, sort, reference)?;
    Ok(operator)
}

// The same by an index of the signature where there is one.
fn find_operator_by(
    alloc: Global,
    signature: &Signature,
    index: Option<&Index>,
    kind: ClauseKind,
    sort: &Sort,
    reference: &RawOpRef,
) -> Result<Operator, TraitRefusal>
    requires { IfSome index (λ i. IsIndex i.now signature.now) }
    ensures { Answers cause result (operator_named signature.now kind sort.now reference.now) }
{
    let wanted = wanted_of(alloc, kind, sort, reference)?;
    match only_of(alloc, signature, index, &wanted)? {
        Some(operator) => {
            let operator = operator.copy()?;
            Ok(operator)
        }
        None => Err(TraitRefusal::Wrong(reference.form.pos, code_of(kind))),
    }
}

// The one operator of a signature that is wanted, by an index of it where there is one.
fn only_of<'a>(
    alloc: Global,
    signature: &'a Signature,
    index: Option<&'a Index>,
    wanted: &Wanted,
) -> Result<Option<&'a Operator>, Memory>
    requires { IfSome index (λ i. IsIndex i.now signature.now) }
    ensures { IfOk result (λ found. option_copied found ≡ only_operator (is_wanted wanted.now) signature.now) }
{
    match index {
        Some(index) => {
            let found = only_indexed(alloc, index, wanted)?;
            Ok(found)
        }
        None => Ok(only_operator(signature.operators(), wanted)),
    }
}

// The one operator in an index that is wanted.
fn only_indexed<'a>(
    alloc: Global,
    index: &'a Index,
    wanted: &Wanted,
) -> Result<Option<&'a Operator>, Memory>
    ensures { (fs : List PlainOperator) → IsIndex index.now fs
        → IfOk result (λ found. option_copied found ≡ only_operator (is_wanted wanted.now) fs) }
{
    if let Some(exact) = &wanted.exact {
        if suits(wanted.kind, &wanted.sort, exact) {
            return Ok(only_seen(index.themselves.get(exact)));
        }
        return Ok(None);
    }
    let key = key_of(alloc, &wanted.name, &wanted.sort)?;
    match wanted.kind {
        ClauseKind::Generated => Ok(only_seen(index.made.get(&key))),
        ClauseKind::Partitioned => Ok(only_seen(index.taking.get(&key))),
    }
}

// What a reference of a clause is looked for as.
fn wanted_of(
    alloc: Global,
    kind: ClauseKind,
    sort: &Sort,
    reference: &RawOpRef,
) -> Result<Wanted, Memory>
    ensures { IfOk result (λ wanted. wanted ≡ wanted_of kind sort.now reference.now) }
{
    let sort = sort.copy()?;
    let name = reference.form.name.copy()?;
    let exact = match &reference.sig {
        None => None,
        Some(sig) => {
            let operator = operator_of(alloc, sig, &reference.form)?;
            Some(operator)
        }
    };
    Ok(Wanted {
        kind,
        sort,
        name,
        exact,
    })
}

// The code of a clause of which a reference names no one operator that suits.
fn code_of(kind: ClauseKind) -> Code
    ensures { result ≡ clause_code kind }
{
    match kind {
        ClauseKind::Generated => Code::Generator,
        ClauseKind::Partitioned => Code::Partition,
    }
}

// The first operator that is wanted, if all that are wanted are equal to it.
fn only_operator<'a>(operators: &'a [Operator], wanted: &Wanted) -> Option<&'a Operator>
    ensures { option_copied result ≡ only_operator (is_wanted wanted.now) operators.now }
{
    let first = first_wanted(operators, wanted)?;
    if all_same(first, operators, wanted) {
        Some(first)
    } else {
        None
    }
}

// The first operator that is wanted.
fn first_wanted<'a>(operators: &'a [Operator], wanted: &Wanted) -> Option<&'a Operator>
    ensures { option_copied result ≡ find (is_wanted wanted.now) operators.now }
{
    operators
        .iter()
        .find(|operator| is_wanted(wanted, operator))
}

// Whether all operators that are wanted are equal to one.
fn all_same(first: &Operator, operators: &[Operator], wanted: &Wanted) -> bool
    ensures { result ≡ all_same (is_wanted wanted.now) first.now operators.now }
{
    operators.iter().all(|operator| !is_wanted(wanted, operator) || *first == *operator)
}

// Whether an operator is wanted.
fn is_wanted(wanted: &Wanted, operator: &Operator) -> bool
    ensures { result ≡ is_wanted wanted.now operator.now }
{
    is_meant(wanted, operator) && suits(wanted.kind, &wanted.sort, operator)
}

// Whether a reference means an operator.
fn is_meant(wanted: &Wanted, operator: &Operator) -> bool
    ensures { result ≡ is_meant wanted.now.exact wanted.now.name operator.now }
{
    match &wanted.exact {
        Some(exact) => *operator == *exact,
        None => *operator.name() == wanted.name,
    }
}

// Whether an operator suits a clause of this sort.
fn suits(kind: ClauseKind, sort: &Sort, operator: &Operator) -> bool
    ensures { result ≡ suits kind sort.now operator.now }
{
    match kind {
        ClauseKind::Generated => *operator.range() == *sort,
        ClauseKind::Partitioned => takes(sort, operator),
    }
}

// Whether an operator has a sort in its domain.
fn takes(sort: &Sort, operator: &Operator) -> bool
    ensures { result ≡ takes sort.now operator.now }
{
    operator.domain().iter().any(|taken| *sort == *taken)
}
