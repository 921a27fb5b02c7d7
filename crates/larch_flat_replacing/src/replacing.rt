ghost use Rattle.std.specs.Prelude.{◌≡◌, length, IfOk};
ghost use Rattle.std.specs.List.{list_any};
ghost use Rattle.std.specs.Option.{option_copied};
ghost use Rattle.larch_base.specs.Answering.{Answers};
ghost use Rattle.larch_base.specs.declared.code.Code.TheVariants.{Rename};
ghost use Rattle.larch_term.specs.BuiltIn.{is_built_in};
ghost use Rattle.larch_flat_meaning.specs.TraitsItemsRefusal.{cause};
ghost use Rattle.larch_base_meaning.specs.Steps.{after, all_taken};
ghost use Rattle.larch_flat_meaning.specs.Replacements.{OldOperators, OldSort, by_name, by_position, cannot_rename};
ghost use Rattle.larch_flat_meaning.specs.Replacements.{cannot_rename_sort, fits_operator, is_count_wrong};
ghost use Rattle.larch_flat_meaning.specs.Replacements.{kept_apart, meant_by};
ghost use Rattle.larch_flat_meaning.specs.Replacements.{new_operator, none_or_any, none_replaced, plain_forms, replace};
ghost use Rattle.larch_flat_meaning.specs.Replacements.{replace_form, replacements_of};
ghost use Rattle.larch_flat_meaning.specs.Stops.{refused_if};

use crate::old_names::OldNames;
use crate::replacements::Replacements;
use larch_base::{Code, Memory, Pos};
use larch_flat_meaning::from_traits_items::TraitRefusal;
use larch_raw::{RawActual, RawForm, RawRef, RawSig};
use larch_term::{Operator, Sort, is_built_in};
use std::alloc::Global;

// A replacement as it is written: a new form in place of what an old one names, or of the operator of its signature
// where there is one, and where RENAME stands if it can't be.
#[derive(Drop)]
struct Replacement<'a> {
    old: &'a RawForm,
    sig: Option<&'a RawSig>,
    new: &'a RawForm,
    pos: Pos,
}

/// What a reference to a trait with these operators and formals replaces. `Wrong` has RENAME: at the reference where
/// forms stand for formals, and not as many as there are; or else at the first replacement that can't be, at its own
/// form where it stands for a formal, at the old form else; or else at the reference where an operator would become a
/// built-in one. For each replacement it goes through the operators once.
pub fn replacements_of(
    alloc: Global,
    operators: &[Operator],
    formals: &[RawForm],
    reference: &RawRef,
) -> Result<Replacements, TraitRefusal>
    ensures { Answers cause result (replacements_of operators.now formals.now reference.now) }
{
    check_reference(alloc, operators, formals, reference)
}

// What a reference replaces: the count is right, each replacement can be, and no operator becomes a built-in one.
fn check_reference(
    alloc: Global,
    operators: &[Operator],
    formals: &[RawForm],
    reference: &RawRef,
) -> Result<Replacements, TraitRefusal>
    ensures { Answers cause result
        (refused_if Rename reference.now.name.pos (is_count_wrong formals.now (plain_forms reference.now.actuals))
        (after (after
        (all_taken (replace operators.now) (by_position formals.now (plain_forms reference.now.actuals)) none_replaced)
        (all_taken (replace operators.now) (by_name reference.now.actuals)))
        (kept_apart operators.now reference.now.name.pos))) }
{
    let actuals = reference.actuals.as_slice();
    if is_count_wrong(formals, actuals) {
        return Err(TraitRefusal::Wrong(reference.name.pos, Code::Rename));
    }
    let by = all_replaced(alloc, operators, formals, actuals)?;
    if makes_built_in(alloc, &by, operators)? {
        return Err(TraitRefusal::Wrong(reference.name.pos, Code::Rename));
    }
    Ok(by)
}

// Whether forms stand for formals, and not as many as there are.
fn is_count_wrong(formals: &[RawForm], actuals: &[RawActual]) -> bool
    ensures { result ≡ is_count_wrong formals.now (plain_forms actuals.now) }
{
    let count = count_plain(actuals);
    count > 0 && formals.len() != count
}

// How many forms stand for formals.
fn count_plain(actuals: &[RawActual]) -> usize
    ensures { result ≡ length (plain_forms actuals.now) }
{
    let mut count = 0usize;
    for actual in actuals {
        if let RawActual::Plain(_) = actual {
            count += 1;
        }
    }
    count
}

// What actuals replace, those of formals first.
#[tactic(auto, using(crate::proofs::Steps::nothing_replaced))]
fn all_replaced(
    alloc: Global,
    operators: &[Operator],
    formals: &[RawForm],
    actuals: &[RawActual],
) -> Result<Replacements, TraitRefusal>
    ensures { Answers cause result (after
        (all_taken (replace operators.now) (by_position formals.now (plain_forms actuals.now)) none_replaced)
        (all_taken (replace operators.now) (by_name actuals.now))) }
{
    if actuals.is_empty() {
        return Ok(Replacements::none(alloc));
    }
    let names = OldNames::of(alloc, operators)?;
    let by = replaced_by_position(alloc, &names, formals, actuals)?;
    replaced_by_name(alloc, &names, by, actuals)
}

// What forms replace that stand for formals.
fn replaced_by_position<'a>(
    alloc: Global,
    names: &OldNames,
    formals: &'a [RawForm],
    actuals: &'a [RawActual],
) -> Result<Replacements, TraitRefusal>
    ensures { Answers cause result
        (all_taken (replace names.now) (by_position formals.now (plain_forms actuals.now)) none_replaced) }
{
    let mut by = Replacements::none(alloc);
    let mut left = formals;
    for actual in actuals {
        if let RawActual::Plain(form) = actual {
            let [formal, others @ ..] = left else {
                return Ok(by);
            };
            let replacement = Replacement {
                old: formal,
                sig: None,
                new: form,
                pos: form.pos,
            };
            by = with_replacement(alloc, names, by, &replacement)?;
            left = others;
        }
    }
    Ok(by)
}

// Replacements with those of old names.
fn replaced_by_name(
    alloc: Global,
    names: &OldNames,
    by: Replacements,
    actuals: &[RawActual],
) -> Result<Replacements, TraitRefusal>
    ensures { Answers cause result (all_taken (replace names.now) (by_name actuals.now) by) }
{
    let mut by = by;
    for actual in actuals {
        if let RawActual::Replace(new, old, sig) = actual {
            let replacement = Replacement {
                old,
                sig: sig.as_ref(),
                new,
                pos: old.pos,
            };
            by = with_replacement(alloc, names, by, &replacement)?;
        }
    }
    Ok(by)
}

// Replacements with one more, unless that can't be.
fn with_replacement(
    alloc: Global,
    names: &OldNames,
    by: Replacements,
    replacement: &Replacement<'_>,
) -> Result<Replacements, TraitRefusal>
    ensures { Answers cause result (replace_form replacement.now.pos replacement.now.new.now
        (meant_by names.now replacement.now.old.now (option_copied replacement.now.sig)) by) }
{
    if names.is_sort(replacement.old, replacement.sig) {
        return sort_replaced(by, &replacement.old.name, replacement.new, replacement.pos);
    }
    let operators = names.meant(alloc, replacement.old, replacement.sig)?;
    operators_replaced(by, operators.as_slice(), replacement.new, replacement.pos)
}

// Replacements with a new form in place of a sort, unless that can't be.
#[tactic(auto, using(crate::proofs::Lookups::not_yet))]
fn sort_replaced(
    by: Replacements,
    old: &Sort,
    new: &RawForm,
    pos: Pos,
) -> Result<Replacements, TraitRefusal>
    ensures { Answers cause result (replace_form pos new.now (OldSort old.now) by) }
{
    if cannot_rename_sort(&by, new, old) {
        return Err(TraitRefusal::Wrong(pos, Code::Rename));
    }
    let by = by.with_sort(old, &new.name)?;
    Ok(by)
}

// Whether a sort can't get this name.
fn cannot_rename_sort(by: &Replacements, new: &RawForm, sort: &Sort) -> bool
    ensures { result ≡ cannot_rename_sort by.now new.now sort.now }
{
    sort.bytes() == b"Bool".as_slice() || (by.has_sort(sort) || !new.word)
}

// Replacements with a new form in place of the names of operators, unless that can't be.
fn operators_replaced(
    by: Replacements,
    operators: &[Operator],
    new: &RawForm,
    pos: Pos,
) -> Result<Replacements, TraitRefusal>
    ensures { Answers cause result (replace_form pos new.now (OldOperators operators.now) by) }
{
    if none_or_any(&by, new, operators) {
        return Err(TraitRefusal::Wrong(pos, Code::Rename));
    }
    let by = by.with_operators(operators, &new.name)?;
    Ok(by)
}

// Whether there are no operators, or one can't get this name.
fn none_or_any(by: &Replacements, new: &RawForm, operators: &[Operator]) -> bool
    ensures { result ≡ none_or_any (cannot_rename by.now new.now) operators.now }
{
    match operators {
        [] => true,
        [first, others @ ..] => cannot_rename(by, new, first) || any_cannot(by, new, others),
    }
}

// Whether one of operators can't get this name.
fn any_cannot(by: &Replacements, new: &RawForm, operators: &[Operator]) -> bool
    ensures { result ≡ list_any (cannot_rename by.now new.now) operators.now }
{
    operators
        .iter()
        .any(|operator| cannot_rename(by, new, operator))
}

// Whether an operator can't get this name.
fn cannot_rename(by: &Replacements, new: &RawForm, operator: &Operator) -> bool
    ensures { result ≡ cannot_rename by.now new.now operator.now }
{
    is_reserved(operator) || (by.has_operator(operator) || !fits_operator(new, operator))
}

// Whether an operator is built in.
fn is_reserved(operator: &Operator) -> bool
    ensures { result ≡ is_built_in operator.now }
{
    is_built_in(operator)
}

// Whether a form's markers fit an operator's domain.
fn fits_operator(new: &RawForm, operator: &Operator) -> bool
    ensures { result ≡ fits_operator new.now operator.now }
{
    new.word || new.markers as usize == operator.domain().len()
}

// Whether an operator becomes a built-in one.
fn makes_built_in(alloc: Global, by: &Replacements, operators: &[Operator]) -> Result<bool, Memory>
    ensures { IfOk result (λ some. some ≡ list_any (λ f. is_built_in (new_operator by.now f)) operators.now) }
{
    for operator in operators {
        let new = by.operator(alloc, operator)?;
        if is_reserved(&new) {
            return Ok(true);
        }
    }
    Ok(false)
}
