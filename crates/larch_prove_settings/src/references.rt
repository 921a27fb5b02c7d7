ghost use Rattle.std.specs.Cmp.Lexicographic.{pointwise};
ghost use Rattle.std.specs.Option.{option_copied};
ghost use Rattle.std.specs.Prelude.{◌≡◌, ◌&&◌, bytes_eq, filter, IfErr, IfOk, Ok};
ghost use Rattle.larch_prove_meaning.specs.Levels.{Proof};
ghost use Rattle.larch_prove_meaning.specs.Steps.{has_signature, is_referred, refer, texts};
ghost use Rattle.larch_prove_settings.specs.References.{only_one};
ghost use Rattle.larch_prove_settings.specs.Settings.{AreSettingsOf};
ghost use Rattle.larch_prove_settings.specs.Telling.{Tells};

use crate::refusal::CommandRefusal;
use crate::settings::Settings;
use larch_base::Code;
use larch_raw::{RawOpRef, RawSig, RawWord};
use larch_term::{Operator, Sort};

impl Settings {
    // The one operator that a reference names, a built-in one being none.
    pub(crate) fn refer(&self, reference: &RawOpRef) -> Result<Operator, CommandRefusal>
        ensures named { IfOk result (λ operator. (p : Proof) → AreSettingsOf self.now p
            → refer p reference.now ≡ Ok operator) }
        ensures refused { IfErr result (λ refusal. (p : Proof) → AreSettingsOf self.now p
            → Tells (refer p reference.now) refusal) }
    {
        let Some(operator) = the_only(self.signature.operators(), reference) else {
            return Err(CommandRefusal::Wrong(Code::Operator));
        };
        Ok(operator.copy()?)
    }
}

// The one operator that a reference names, if there is just one.
#[tactic(auto, using(crate::proofs::Named::end_so))]
fn the_only<'a>(operators: &'a [Operator], reference: &RawOpRef) -> Option<&'a Operator>
    ensures { only_one (filter (is_referred reference.now) operators.now) ≡ option_copied result }
{
    let mut found = None;
    for operator in operators {
        if is_referred(reference, operator) {
            if found.is_some() {
                return None;
            }
            found = Some(operator);
        }
    }
    found
}

// Whether a reference names an operator.
fn is_referred(reference: &RawOpRef, operator: &Operator) -> bool
    ensures { result ≡ is_referred reference.now operator.now }
{
    *operator.name() == reference.form.name && has_signature(reference.sig.as_ref(), operator)
}

// Whether an operator has a signature.
#[tactic(auto, using(crate::proofs::Named::signed_so))]
fn has_signature(signature: Option<&RawSig>, operator: &Operator) -> bool
    ensures { result ≡ has_signature (option_copied signature.entry) operator.now }
{
    match signature {
        None => true,
        Some(signature) => is_signed(signature, operator),
    }
}

// Whether an operator has the domain and the range of a signature.
fn is_signed(signature: &RawSig, operator: &Operator) -> bool
    ensures { result ≡ (pointwise bytes_eq operator.now.domain (texts signature.now.domain)
        && bytes_eq operator.now.range signature.now.range.name) }
{
    are_named(operator.domain(), signature.domain.as_slice())
        && *operator.range() == signature.range.name
}

// Whether sorts have these names.
#[tactic(auto, using(crate::proofs::Named::alike_names, crate::proofs::Named::unlike_names, crate::proofs::Named::unlike_lengths))]
fn are_named(sorts: &[Sort], words: &[RawWord]) -> bool
    ensures { result ≡ pointwise bytes_eq sorts.now (texts words.now) }
{
    if sorts.len() != words.len() {
        return false;
    }
    for i in 0..sorts.len() {
        if sorts[i] != words[i].name {
            return false;
        }
    }
    true
}
