ghost use Rattle.std.specs.Prelude.{◌≡◌, ◌<◌, ◌++◌, ◌^◌, length, IfOk, OnOk};
ghost use Rattle.std.specs.List.{list_all};
ghost use Rattle.larch_base.specs.Label.{label_text};
ghost use Rattle.larch_models_meaning.specs.Computed.{holds};
ghost use Rattle.larch_models_meaning.specs.FiniteModel.{interpretation_of};
ghost use Rattle.larch_models_answer.specs.Judgements.{claim_line, claim_lines, label_at};

use larch_base::{Bytes, Label, Memory};
use larch_models::holds;
use larch_models_meaning::FiniteModel;
use larch_term::Statement;
use std::alloc::Global;

/// What kind of claim statements are.
#[derive(Clone, Copy)]
pub(crate) enum Kind {
    Assumed,
    Implied,
}

/// Puts a line for each claim of a kind at the end, and answers whether all hold.
pub(crate) fn append_claims(
    alloc: Global,
    model: &FiniteModel,
    kind: Kind,
    claims: &[Statement],
    text: &mut Bytes,
) -> Result<bool, Memory>
    requires { length claims.now < 2 ^ 32 }
    ensures all { IfOk result (λ all. all ≡ list_all (holds (interpretation_of model.now)) claims.now) }
    ensures text { OnOk result (text.new ≡ text.old ++ claim_lines (interpretation_of model.now) kind 1 claims.now) }
{
    let mut all = true;
    for i in 0..claims.len() {
        let so = append_claim(alloc, model, label_at(kind, i as u32 + 1), &claims[i], text)?;
        all = all && so;
    }
    Ok(all)
}

// Puts the line of a claim at the end, and answers whether it holds.
fn append_claim(
    alloc: Global,
    model: &FiniteModel,
    label: Label,
    claim: &Statement,
    text: &mut Bytes,
) -> Result<bool, Memory>
    ensures so { IfOk result (λ so. so ≡ holds (interpretation_of model.now) claim.now) }
    ensures text { OnOk result (text.new ≡ text.old ++ claim_line (interpretation_of model.now) label claim.now) }
{
    let so = holds(alloc, model, claim)?;
    append_label(alloc, label, text)?;
    text.append(if so { b" holds\n" } else { b" fails\n" })?;
    Ok(so)
}

// Puts a label at the end.
fn append_label(alloc: Global, label: Label, text: &mut Bytes) -> Result<(), Memory>
    ensures { OnOk result (text.new ≡ text.old ++ label_text label) }
{
    let label = format!(in alloc; "{label}")?;
    text.append(label.as_bytes())
}

// The label of the claim of a kind with a number.
fn label_at(kind: Kind, number: u32) -> Label
    ensures { result ≡ label_at kind number }
{
    match kind {
        Kind::Assumed => Label::Assume(number),
        Kind::Implied => Label::Imply(number),
    }
}
