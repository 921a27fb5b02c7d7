ghost use Rattle.std.specs.Prelude.{◌≡◌, ℕ, ◌<◌, true, fold, length, Err, IfErr, IfOk, IfSome, OnOk};
ghost use Rattle.larch_flat_sources.specs.FlatMeaningFlat.{renamed_marked, within};
ghost use Rattle.larch_flat_sources.specs.FlatMeaningGathered.{Gathered, with_taken};
ghost use Rattle.larch_flat_gathering.specs.Keeping.{Keeps, Leaves};
ghost use Rattle.larch_flat.specs.Known.{IsTarget, Knows, LeavesFlat, is_known, stop_told};
ghost use Rattle.larch_flat.specs.Parts.{with_new, with_parts, with_reference};
ghost use Rattle.larch_flat_sources.specs.Links.{AreLeading};
ghost use Rattle.larch_flat_sources.specs.Sources.{name_at};

use crate::flat_traits::FlatTraits;
use larch_base::{Code, Memory};
use larch_flat_gathering::Gathering;
use larch_flat_gathering::from_flat_statements::MarkedStatements;
use larch_flat_replacing::{NewNames, Replacements, replacements_of};
use larch_flat_sources::from_traits_items::TraitRefusal;
use larch_flat_sources::{MarkedFiles, Sources};
use larch_raw::{RawForm, RawReference};
use larch_term::{Operator, copy_statement};
use std::alloc::Global;

// The number of the file that a reference names; `marks` has the files that lead to the one with the reference. It is
// refused where there is none, or it leads back.
pub(crate) fn target_of(
    sources: &Sources,
    marks: &MarkedFiles,
    number: usize,
    reference: &RawReference,
) -> Result<usize, TraitRefusal>
    requires number { number < length sources.now }
    requires size { length marks.now ≡ length sources.now }
    requires leading { AreLeading sources.now marks.now number }
    ensures found { IfOk result (λ found. IsTarget sources.now number reference.now found) }
    ensures refused { IfErr result (λ refusal. (g : Gathered) → IfSome (stop_told refusal) (λ stop.
        with_reference sources.now (name_at sources.now number) reference.now g ≡ Err stop)) }
{
    let name = &reference.target.name;
    match sources.number_of(&name.name) {
        None => Err(TraitRefusal::Wrong(name.pos, Code::UnknownTrait)),
        Some(found) => {
            if marks.leads_back(found) {
                Err(TraitRefusal::Wrong(name.pos, Code::Cycle))
            } else {
                Ok(found)
            }
        }
    }
}

// Takes what a reference names, of which something is known.
pub(crate) fn take_target(
    alloc: Global,
    sources: &Sources,
    known: &FlatTraits,
    found: usize,
    reference: &RawReference,
    store: &mut Gathering,
) -> Result<(), TraitRefusal>
    requires within { found < length sources.now }
    requires size { length known.now ≡ length sources.now }
    requires known { is_known known.now found ≡ true }
    ensures { (number : ℕ) (g : Gathered) → Knows sources.now known.now
        → IsTarget sources.now number reference.now found
        → Keeps store.old g
        → LeavesFlat store.new result (with_reference sources.now (name_at sources.now number) reference.now g) }
{
    match known.get(found) {
        Some(Ok(flat)) => match sources.text(found) {
            Ok(raw) => take_flat(
                alloc,
                raw.formals.as_slice(),
                flat.operators.as_slice(),
                &flat.marked,
                reference,
                store,
            ),
            Err(_) => Err(bad(reference)),
        },
        Some(Err(_)) => Err(bad(reference)),
        None => Err(bad(reference)),
    }
}

// The trait that a reference names is refused.
fn bad(reference: &RawReference) -> TraitRefusal
    ensures { result ≡ TraitRefusal.Wrong reference.now.target.name.pos Code.BadReference }
{
    TraitRefusal::Wrong(reference.target.name.pos, Code::BadReference)
}

// Takes the operators and marked statements of a trait with these formals, by the names that a reference gives.
fn take_flat(
    alloc: Global,
    formals: &[RawForm],
    operators: &[Operator],
    marked: &MarkedStatements,
    reference: &RawReference,
    store: &mut Gathering,
) -> Result<(), TraitRefusal>
    ensures { (g : Gathered) → Keeps store.old g
        → Leaves store.new result (with_parts reference.now formals.now operators.now marked.now g) }
{
    let by = replacements_of(alloc, operators, formals, &reference.target)?;
    take_new(alloc, by, operators, marked, reference, store)
}

// The same by these names.
fn take_new(
    alloc: Global,
    by: Replacements,
    operators: &[Operator],
    marked: &MarkedStatements,
    reference: &RawReference,
    store: &mut Gathering,
) -> Result<(), TraitRefusal>
    ensures { (g : Gathered) → Keeps store.old g
        → Leaves store.new result (within reference.now.target.name.pos
        (with_new reference.now by operators.now marked.now g)) }
{
    let names = NewNames::new(alloc, by, operators)?;
    let operators = names.operators(alloc, operators)?;
    store.insert_operators(operators.as_slice())?;
    let marked = renamed_marked(alloc, &names, marked)?;
    take_all(alloc, store, reference.assumed, &marked)?;
    if store.is_too_large() {
        return Err(TraitRefusal::Wrong(reference.target.name.pos, Code::Size));
    }
    Ok(())
}

// Marked statements by other names, each where it occurs first.
fn renamed_marked(
    alloc: Global,
    names: &NewNames,
    marked: &MarkedStatements,
) -> Result<MarkedStatements, Memory>
    ensures { IfOk result (λ renamed. renamed ≡ renamed_marked names.now marked.now) }
{
    let mut renamed = MarkedStatements::new(alloc);
    for index in 0..marked.len() {
        if let Some((statement, assumed)) = marked.get(index) {
            let statement = names.rename_statement(alloc, statement)?;
            renamed.insert(statement, assumed)?;
        }
    }
    Ok(renamed)
}

// Takes marked statements of a trait, which is assumed or else included, in order.
fn take_all(
    alloc: Global,
    store: &mut Gathering,
    assumes: bool,
    marked: &MarkedStatements,
) -> Result<(), Memory>
    ensures { (g : Gathered) → Keeps store.old g
        → OnOk result (Keeps store.new (fold (λ h m. with_taken assumes m h) g marked.now)) }
{
    for index in 0..marked.len() {
        if let Some((statement, assumed)) = marked.get(index) {
            let statement = copy_statement(alloc, statement)?;
            store.take_marked(assumes, statement, assumed)?;
        }
    }
    Ok(())
}
