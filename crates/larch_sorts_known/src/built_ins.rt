ghost use Rattle.std.specs.Prelude.{◌≡◌, ◌++◌, map, IfOk, OnOk};
ghost use Rattle.larch_term.specs.BuiltIn.{built_in, built_in_name, bool_sort};
ghost use Rattle.larch_term.specs.Operator.{plain};
ghost use Rattle.larch_sorts_known.specs.BuiltIns.{built_ins_at, propositional};

use larch_term::from_base::{Memory, Name, Sequence};
use larch_term::{BuiltIn, Operator, Operators, Sort, Sorts, bool_sort};
use std::alloc::Global;

// The built-in operators over Bool alone.
const PROPOSITIONAL: [BuiltIn; 7] = [
    BuiltIn::True,
    BuiltIn::False,
    BuiltIn::Not,
    BuiltIn::And,
    BuiltIn::Or,
    BuiltIn::Implies,
    BuiltIn::Iff,
];

/// Puts the built-in operators at sorts behind others: those over Bool alone, then equality at each sort, inequality
/// at each sort, and choice at each sort.
#[tactic(auto, using(crate::proofs::InTurn::in_turn))]
pub fn push_built_ins(
    alloc: Global,
    operators: &mut Operators,
    sorts: &[Sort],
) -> Result<(), Memory>
    ensures { OnOk result (operators.new ≡ operators.old ++ built_ins_at sorts.now) }
{
    push_propositional(alloc, operators)?;
    push_at_each(alloc, operators, BuiltIn::Equal, sorts)?;
    push_at_each(alloc, operators, BuiltIn::Unequal, sorts)?;
    push_at_each(alloc, operators, BuiltIn::If, sorts)?;
    Ok(())
}

fn push_propositional(alloc: Global, operators: &mut Operators) -> Result<(), Memory>
    ensures { OnOk result (operators.new ≡ operators.old ++ map (λ b. built_in b bool_sort) propositional) }
{
    let truth = bool_sort(alloc)?;
    for built_in in &PROPOSITIONAL {
        let operator = built_in.operator(alloc, &truth)?;
        operators.push(operator)?;
    }
    Ok(())
}

// The same operator at each sort. Its name and `Bool` are made once, since there may be many sorts.
fn push_at_each(
    alloc: Global,
    operators: &mut Operators,
    kind: BuiltIn,
    sorts: &[Sort],
) -> Result<(), Memory>
    ensures { OnOk result (operators.new ≡ operators.old ++ map (built_in kind) sorts.now) }
{
    let name = Name::new(alloc, kind.name())?;
    let truth = bool_sort(alloc)?;
    for sort in sorts {
        let operator = operator_at(alloc, kind, &name, &truth, sort)?;
        operators.push(operator)?;
    }
    Ok(())
}

// The operator at a sort, by its name and `Bool`.
fn operator_at(
    alloc: Global,
    kind: BuiltIn,
    name: &Name,
    truth: &Sort,
    sort: &Sort,
) -> Result<Operator, Memory>
    requires name { name.now ≡ built_in_name kind }
    requires truth { truth.now ≡ bool_sort }
    ensures { IfOk result (λ operator. operator ≡ built_in kind sort.now) }
{
    match kind {
        BuiltIn::Equal | BuiltIn::Unequal => {
            let domain = copies_of(alloc, &[sort, sort])?;
            operator_of(alloc, name, domain, truth)
        }
        BuiltIn::If => {
            let domain = copies_of(alloc, &[truth, sort, sort])?;
            operator_of(alloc, name, domain, sort)
        }
        other => other.operator(alloc, sort),
    }
}

// The operator of copies of a name and a range.
fn operator_of(alloc: Global, name: &Name, domain: Sorts, range: &Sort) -> Result<Operator, Memory>
    ensures { IfOk result (λ operator. operator
        ≡ record { name = plain name.now; domain = domain; range = range.now }) }
{
    let name = name.copy()?;
    let range = range.copy()?;
    Operator::new(alloc, name, domain, range)
}

// Copies of sorts, with no room for more.
fn copies_of(alloc: Global, sorts: &[&Sort]) -> Result<Sorts, Memory>
    ensures { IfOk result (λ copies. copies ≡ map (λ sort. sort.now) sorts.now) }
{
    let mut copies = Vec::with_capacity(alloc, sorts.len())?;
    for sort in sorts {
        let copy = sort.copy()?;
        copies.push(copy)?;
    }
    Ok(Sequence::from_vec(copies))
}
