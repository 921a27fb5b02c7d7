ghost use Rattle.std.specs.Prelude.{◌≡◌, ◌<◌, ◌-◌, ◌^◌, [], length, min, nat_lt, sum_by, IfOk, IsTrue};
ghost use Rattle.larch_base.specs.Answering.{Answers};
ghost use Rattle.larch_base.specs.declared.limits.TheConstants.{MAX_DUTIES};
ghost use Rattle.larch_duties_meaning.specs.Duties.{all_duties};
ghost use Rattle.larch_flat.specs.FlatSourcesSources.{Table, name_at};
ghost use Rattle.larch_flat.specs.Known.{AreAllKnown, Knows, stop_told};
ghost use Rattle.larch_duties.specs.Kept.{duties_in};
ghost use Rattle.larch_duties.specs.TraitDuties.{claims_of, flat_with, trait_duties};

use crate::conversion::{Conversion, conversions_of};
use crate::implied::implied;
use crate::known::{known_of, not_discharged};
use larch_base::limits::MAX_DUTIES;
use larch_base::{Code, Memory, Sequence};
use larch_flat::FlatTraits;
use larch_flat::from_flat_gathering::Flat;
use larch_flat::from_flat_sources::Sources;
use larch_flat_meaning::from_sorts_signature::Signature;
use larch_flat_meaning::from_traits_items::TraitRefusal;
use larch_raw::RawTrait;
use larch_term::{Statement, Statements, copy_operators};
use std::alloc::Global;
use std::marker::Model;

/// The duties of a trait whose flat trait is borrowed. Contracts see them as `larch_duties_meaning` defines them;
/// copies and theories aren't kept.
pub struct Duties<'a> {
    pub(crate) flat: &'a Flat,
    pub(crate) implied: Statements,
    pub(crate) conversions: Sequence<Conversion>,
}

// By a call, so that a proof takes duties apart in one place alone.
impl Drop for Duties<'_> {
    fn drop(self) {
        let Duties {
            flat: _flat,
            implied: _implied,
            conversions: _conversions,
        } = self;
    }
}

impl<'a> Model for Duties<'a> {
    ghost use Rattle.larch_duties_meaning.specs.Duties.{Duties as Whole};
    ghost use Rattle.larch_duties.specs.DutiesCode.{coded_duties};
    ghost use Rattle.larch_duties.specs.Kept.{duties_in};

    ghost Value = { Whole };

    ghost coded = { coded_duties };

    ghost view = { λ d. duties_in d.flat.now d.implied d.conversions };
}

/// The duties of the trait of the file with a number, where all flat traits are known. `Wrong` has what is wrong with
/// its flat trait, or else with its claims: first an implied reference, then an implied item, then a clause `converts`,
/// at last SIZE at the trait's name where there are too many.
pub fn duties_of<'a>(
    alloc: Global,
    sources: &Sources,
    flat_traits: &'a FlatTraits,
    number: usize,
) -> Result<Duties<'a>, TraitRefusal>
    requires number { number < length sources.now }
    requires known { Knows sources.now flat_traits.now }
    requires all { AreAllKnown sources.now flat_traits.now }
    ensures { Answers stop_told result (trait_duties sources.now (name_at sources.now number)) }
{
    match known_of(flat_traits, number) {
        Ok(flat) => match sources.text(number) {
            Ok(raw) => claims_of(alloc, sources, flat_traits, flat, raw),
            Err(fault) => Err(TraitRefusal::Wrong(fault.pos, fault.code)),
        },
        Err(fault) => Err(TraitRefusal::Wrong(fault.pos, fault.code)),
    }
}

// The duties of a flat trait with this text. Its operators are made ready for reading only where there is something to
// be read.
pub(crate) fn claims_of<'a>(
    alloc: Global,
    sources: &Sources,
    flat_traits: &FlatTraits,
    flat: &'a Flat,
    raw: &RawTrait,
) -> Result<Duties<'a>, TraitRefusal>
    requires known { Knows sources.now flat_traits.now }
    requires all { AreAllKnown sources.now flat_traits.now }
    ensures { Answers stop_told result (claims_of sources.now (flat_with raw.now flat.now)) }
{
    if claims_nothing(raw) {
        return duties_without_claims(alloc, flat, raw);
    }
    let signature = signature_of(alloc, flat)?;
    let statements = implied(alloc, sources, flat_traits, flat, raw, &signature)?;
    let clauses = raw.conversions.as_slice();
    let conversions = conversions_of(alloc, &signature, clauses)?;
    let discharge = flat.discharge.as_slice();
    let implied = not_discharged(alloc, discharge, statements)?;
    if are_too_many(flat, implied.as_slice(), conversions.as_slice()) {
        return Err(TraitRefusal::Wrong(raw.name.pos, Code::Size));
    }
    Ok(Duties {
        flat,
        implied,
        conversions,
    })
}

// Whether a text implies nothing and converts nothing.
fn claims_nothing(raw: &RawTrait) -> bool
    ensures references { IsTrue result → raw.now.implied ≡ [] }
    ensures items { IsTrue result → raw.now.implied_items ≡ [] }
    ensures conversions { IsTrue result → raw.now.conversions ≡ [] }
{
    raw.implied.as_slice().is_empty()
        && raw.implied_items.as_slice().is_empty()
        && raw.conversions.as_slice().is_empty()
}

// The duties of a flat trait whose text implies nothing and converts nothing.
fn duties_without_claims<'a>(
    alloc: Global,
    flat: &'a Flat,
    raw: &RawTrait,
) -> Result<Duties<'a>, TraitRefusal>
    requires references { raw.now.implied ≡ [] }
    requires items { raw.now.implied_items ≡ [] }
    requires conversions { raw.now.conversions ≡ [] }
    ensures { (sources : Table) → Answers stop_told result (claims_of sources (flat_with raw.now flat.now)) }
{
    let implied = Sequence::new(alloc);
    let conversions = Sequence::new(alloc);
    if are_too_many(flat, implied.as_slice(), conversions.as_slice()) {
        return Err(TraitRefusal::Wrong(raw.name.pos, Code::Size));
    }
    Ok(Duties {
        flat,
        implied,
        conversions,
    })
}

// The operators of a flat trait, ready for reading.
fn signature_of(alloc: Global, flat: &Flat) -> Result<Signature, Memory>
    ensures { IfOk result (λ signature. signature ≡ flat.now.operators) }
{
    let operators = copy_operators(alloc, flat.operators.as_slice())?;
    let signature = Signature::from_operators(alloc, operators)?;
    Ok(signature)
}

// Whether duties are too many.
fn are_too_many(flat: &Flat, implied: &[Statement], conversions: &[Conversion]) -> bool
    ensures { result ≡ nat_lt MAX_DUTIES (length (all_duties (duties_in flat.now implied.now conversions.now))) }
{
    let own = flat.discharge.as_slice().len() as u64;
    let own = own.saturating_add(implied.len() as u64);
    own.saturating_add(converted_in(conversions)) > MAX_DUTIES as u64
}

// How many operators are converted; the greatest number of `u64` where there are more.
fn converted_in(conversions: &[Conversion]) -> u64
    ensures { result ≡ min (sum_by (λ c. length c.converted) conversions.now) (2 ^ 64 - 1) }
{
    let mut count: u64 = 0;
    for conversion in conversions {
        count = count.saturating_add(conversion.converted.as_slice().len() as u64);
    }
    count
}
