ghost use Rattle.std.specs.Prelude.{◌≡◌, IfOk, IfSome};
ghost use Rattle.std.specs.Option.{option_copied};
ghost use Rattle.larch_term.specs.BuiltIn.{bool_sort};
ghost use Rattle.larch_term.specs.Sorts.{sort_of};
ghost use Rattle.larch_term.specs.Tree.{Tree};
ghost use Rattle.larch_term.specs.Truth.{truth};
ghost use Rattle.larch_sorts_signature.specs.SortsMeaningReadings.{ReadsAt, IsOnly, Reads};
ghost use Rattle.larch_sorts.specs.Sides.{ReadsSides};

use crate::found::Sides;
use crate::narrow::only_at;
use crate::sides::truth;
use larch_base::Memory;
use larch_raw::{RawEquation, RawNode, RawTerm};
use larch_sorts_signature::Signature;
use larch_sorts_signature::from_sorts_meaning::{Scope, variable_sort};
use larch_term::{Sort, bool_sort};
use std::alloc::Global;

// The sides that an equation reads as, where they are the only ones and their sort is told by the head of one of them,
// or it is a formula.
#[tactic(auto, using(crate::proofs::OnlyReadings::only_sides_met))]
pub(crate) fn only_sides(
    alloc: Global,
    signature: &Signature,
    scope: &Scope,
    raw: &RawEquation,
) -> Result<Option<Sides>, Memory>
    ensures { IfOk result (λ found. IfSome found (IsOnly (ReadsSides signature.now scope.now raw.now))) }
{
    match &raw.right {
        None => {
            let found = only_formula(alloc, signature, scope, &raw.left)?;
            Ok(found)
        }
        Some(right) => {
            if let Some(sort) = told_sort(signature, scope, &raw.left) {
                let found = both_at(alloc, signature, scope, &raw.left, &right.term, sort)?;
                return Ok(found);
            }
            if let Some(sort) = told_sort(signature, scope, &right.term) {
                let found = both_at(alloc, signature, scope, &raw.left, &right.term, sort)?;
                return Ok(found);
            }
            Ok(None)
        }
    }
}

// What a formula reads as, if that is one thing, and true beside it.
fn only_formula(
    alloc: Global,
    signature: &Signature,
    scope: &Scope,
    left: &RawTerm,
) -> Result<Option<Sides>, Memory>
    ensures { IfOk result (λ found. IfSome found (λ sides.
        IsOnly (ReadsAt signature.now scope.now left.now bool_sort) sides.left × (sides.right ≡ truth))) }
{
    let sort = bool_sort(alloc)?;
    let Some(left) = only_at(alloc, signature, scope, left, &sort)? else {
        return Ok(None);
    };
    let right = truth(alloc, &sort)?;
    Ok(Some(Sides { left, right }))
}

// What both sides read as at a sort, if each is one thing.
fn both_at(
    alloc: Global,
    signature: &Signature,
    scope: &Scope,
    left: &RawTerm,
    right: &RawTerm,
    sort: &Sort,
) -> Result<Option<Sides>, Memory>
    ensures { IfOk result (λ found. IfSome found (λ sides.
        IsOnly (ReadsAt signature.now scope.now left.now sort.now) sides.left
        × IsOnly (ReadsAt signature.now scope.now right.now sort.now) sides.right)) }
{
    let Some(left) = only_at(alloc, signature, scope, left, sort)? else {
        return Ok(None);
    };
    let Some(right) = only_at(alloc, signature, scope, right, sort)? else {
        return Ok(None);
    };
    Ok(Some(Sides { left, right }))
}

// The sort that a term has whatever it reads as, where its head tells.
pub(crate) fn told_sort<'a>(
    signature: &'a Signature,
    scope: &'a Scope,
    raw: &'a RawTerm,
) -> Option<&'a Sort>
    ensures { IfSome (option_copied result)
        (λ s. (t : Tree) → Reads signature.now scope.now raw.now t → sort_of t ≡ s) }
{
    match raw.node() {
        RawNode::Apply(name, arguments, _) => {
            if let Some(sort) = variable_sort(scope, name, arguments) {
                return Some(sort);
            }
            let overloads = signature.named(name)?;
            let operator = overloads.only()?;
            Some(operator.range())
        }
        RawNode::Qualified(_, sort, _) => Some(&sort.name),
    }
}
