ghost use Rattle.std.specs.Prelude.{◌≡◌, ◌<◌, ◌≤◌, length, IfOk};
ghost use Rattle.larch_base.specs.Answering.{Answers};
ghost use Rattle.larch_base.specs.declared.limits.TheConstants.{MAX_DUTIES};
ghost use Rattle.larch_raw.specs.declared.equation.RawTrait.{RawTrait};
ghost use Rattle.larch_flat.specs.FlatSourcesSources.{name_at};
ghost use Rattle.larch_flat.specs.Known.{AreAllKnown, Knows, stop_told};
ghost use Rattle.larch_duties.specs.Own.{own_claims, trait_own_claims};
ghost use Rattle.larch_duties.specs.TraitDuties.{flat_with};

use crate::known::known_of;
use crate::theories::theory_of;
use crate::trait_duties::{Duties, duties_of};
use larch_base::Memory;
use larch_flat::FlatTraits;
use larch_flat::from_flat_gathering::Flat;
use larch_flat::from_flat_sources::Sources;
use larch_flat_meaning::from_traits_items::TraitRefusal;
use larch_term::{Statements, Theory, copy_statements};
use std::alloc::Global;

/// The theory of a trait, and what the trait claims over it, kept apart from its flat trait.
#[derive(Drop)]
pub struct OwnClaims {
    pub theory: Theory,
    /// What is to be discharged: the statements of its duties `assume.1`, `assume.2` and so on.
    pub assumed: Statements,
    /// What is implied: the statements of its duties `imply.1`, `imply.2` and so on.
    pub implied: Statements,
}

/// The theory of the trait of the file with a number and what the trait claims over it, where all flat traits are
/// known. `Wrong` has what is wrong first, as `duties_of` tells it.
pub fn own_claims(
    alloc: Global,
    sources: &Sources,
    flat_traits: &FlatTraits,
    number: usize,
) -> Result<OwnClaims, TraitRefusal>
    requires number { number < length sources.now }
    requires known { Knows sources.now flat_traits.now }
    requires all { AreAllKnown sources.now flat_traits.now }
    ensures claims { Answers stop_told result (trait_own_claims sources.now (name_at sources.now number)) }
    ensures assumed { IfOk result (λ own. length own.assumed ≤ MAX_DUTIES) }
    ensures implied { IfOk result (λ own. length own.implied ≤ MAX_DUTIES) }
{
    match known_of(flat_traits, number) {
        Ok(flat) => {
            let duties = duties_of(alloc, sources, flat_traits, number)?;
            Ok(claims_over(alloc, flat, &duties)?)
        }
        Err(fault) => Err(TraitRefusal::Wrong(fault.pos, fault.code)),
    }
}

// The same by a flat trait and its duties.
fn claims_over(alloc: Global, flat: &Flat, duties: &Duties) -> Result<OwnClaims, Memory>
    ensures { (raw : RawTrait) → IfOk result (λ own. own ≡ own_claims (flat_with raw flat.now) duties.now) }
{
    let own = duties.flat;
    let discharge = own.discharge.as_slice();
    let claimed = duties.implied.as_slice();
    let theory = theory_of(alloc, flat)?;
    let assumed = copy_statements(alloc, discharge)?;
    let implied = copy_statements(alloc, claimed)?;
    Ok(OwnClaims {
        theory,
        assumed,
        implied,
    })
}
