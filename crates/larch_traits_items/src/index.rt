ghost use Rattle.std.specs.Prelude.{◌≡◌, List, [], IfOk, OnOk, Some, cond};
ghost use Rattle.std.specs.Option.{option_copied};
ghost use Rattle.larch_term.specs.Equality.{same_operator};
ghost use Rattle.larch_term.specs.Operator.{PlainOperator, plain};
ghost use Rattle.larch_traits_items.specs.Index.{IsIndex, IsSeen, is_itself, is_made, is_taking, only_seen, seen_at};
ghost use Rattle.larch_traits_items.specs.Index.{with_seen};

use indexmap::IndexMap;
use larch_base::{Memory, Name, Sequence};
use larch_term::{Operator, Sort};
use std::alloc::Global;

/// The first operator that was seen, and whether all further ones were equal to it.
#[derive(Drop)]
pub(crate) struct Seen {
    first: Operator,
    same: bool,
}

/// Operators by what references of clauses ask for: by themselves, by name and range, and by name and a sort of the
/// domain.
pub(crate) struct Index {
    pub(crate) themselves: IndexMap<Operator, Seen>,
    pub(crate) made: IndexMap<Operator, Seen>,
    pub(crate) taking: IndexMap<Operator, Seen>,
}

// By a call, so that a proof takes an index apart in one place alone.
impl Drop for Index {
    fn drop(self) {
        let Index {
            themselves: _themselves,
            made: _made,
            taking: _taking,
        } = self;
    }
}

impl Index {
    // The index of these operators.
    pub(crate) fn of(alloc: Global, operators: &[Operator]) -> Result<Index, Memory>
        ensures { IfOk result (λ index. IsIndex index operators.now) }
    {
        let themselves = seen_themselves(alloc, operators)?;
        let made = seen_made(alloc, operators)?;
        let taking = seen_taking(alloc, operators)?;
        Ok(Index {
            themselves,
            made,
            taking,
        })
    }
}

// The operators by themselves.
fn seen_themselves(
    alloc: Global,
    operators: &[Operator],
) -> Result<IndexMap<Operator, Seen>, Memory>
    ensures { IfOk result (λ seen. IsSeen is_itself seen.entries operators.now) }
{
    let mut seen = IndexMap::new(alloc);
    for operator in operators {
        let key = operator.copy()?;
        note(&mut seen, key, operator)?;
    }
    Ok(seen)
}

// The operators by name and range.
fn seen_made(alloc: Global, operators: &[Operator]) -> Result<IndexMap<Operator, Seen>, Memory>
    ensures { IfOk result (λ seen. IsSeen is_made seen.entries operators.now) }
{
    let mut seen = IndexMap::new(alloc);
    for operator in operators {
        let key = key_of(alloc, operator.name(), operator.range())?;
        note(&mut seen, key, operator)?;
    }
    Ok(seen)
}

// The operators by name and a sort of the domain.
fn seen_taking(alloc: Global, operators: &[Operator]) -> Result<IndexMap<Operator, Seen>, Memory>
    ensures { IfOk result (λ seen. IsSeen is_taking seen.entries operators.now) }
{
    let mut seen = IndexMap::new(alloc);
    for operator in operators {
        note_sorts(alloc, &mut seen, operator)?;
    }
    Ok(seen)
}

// Notes an operator at each sort of its domain.
fn note_sorts(
    alloc: Global,
    seen: &mut IndexMap<Operator, Seen>,
    operator: &Operator,
) -> Result<(), Memory>
    ensures { OnOk result ((key : PlainOperator)
        → seen_at seen.new.entries key
        ≡ cond (is_taking key operator.now) (Some (with_seen (seen_at seen.old.entries key) operator.now))
        (seen_at seen.old.entries key)) }
{
    let sorts = operator.domain();
    for position in 0..sorts.len() {
        let key = key_of(alloc, operator.name(), &sorts[position])?;
        note(seen, key, operator)?;
    }
    Ok(())
}

// The key of a name with a sort.
pub(crate) fn key_of(alloc: Global, name: &Name, sort: &Sort) -> Result<Operator, Memory>
    ensures { IfOk result (λ key. key ≡ record { name = plain name.now; domain = []; range = sort.now }) }
{
    let name = name.copy()?;
    let sort = sort.copy()?;
    let key = Operator::new(alloc, name, Sequence::new(alloc), sort)?;
    Ok(key)
}

// Notes an operator at a key.
#[tactic(auto, using(larch_term::specs::OperatorKey::operator_Decides))]
fn note(
    seen: &mut IndexMap<Operator, Seen>,
    key: Operator,
    operator: &Operator,
) -> Result<(), Memory>
    ensures { OnOk result ((other : PlainOperator)
        → seen_at seen.new.entries other
        ≡ cond (same_operator key other) (Some (with_seen (seen_at seen.old.entries other) operator.now))
        (seen_at seen.old.entries other)) }
{
    let now = with_seen(seen.get(&key), operator)?;
    seen.insert(key, now)?;
    Ok(())
}

// What was seen together with one operator more.
fn with_seen(before: Option<&Seen>, operator: &Operator) -> Result<Seen, Memory>
    ensures { IfOk result (λ seen. seen ≡ with_seen (option_copied before.entry) operator.now) }
{
    match before {
        None => {
            let first = operator.copy()?;
            Ok(Seen { first, same: true })
        }
        Some(seen) => {
            let first = seen.first.copy()?;
            let same = seen.same && seen.first == *operator;
            Ok(Seen { first, same })
        }
    }
}

// The one operator that was seen, if all were equal to it.
pub(crate) fn only_seen(seen: Option<&Seen>) -> Option<&Operator>
    ensures { option_copied result ≡ only_seen (option_copied seen.entry) }
{
    match seen {
        None => None,
        Some(seen) => { if seen.same { Some(&seen.first) } else { None } }
    }
}
