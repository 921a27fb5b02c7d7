//! What commands ask for that name a certificate or a model.
ghost use Rattle.std.specs.Prelude.{◌≡◌, IfOk, map};
ghost use Rattle.larch_words.specs.Aims.{asking};
ghost use Rattle.larch_words.specs.Call.{certificate_call, certified_by, is_certificate, is_model, migrate_call};
ghost use Rattle.larch_words.specs.Call.{migrated_alone, migrated_by, trial_call, tried_by};

use crate::call::{Call, Question, Trial, Verification};
use crate::evidence_name::EvidenceName;
use crate::files::on_files;
use larch_base::{Label, Memory, Name, is_stem, read_label};
use std::alloc::Global;

// What the certificate of a duty is wanted for.
#[derive(Clone, Copy)]
pub(crate) enum Aim {
    // To say whether it shows something.
    Verify,
    // To leave out what it doesn't need.
    Trim,
}

// What these words ask for, where they name a certificate and what it is to show.
pub(crate) fn certificate_call(alloc: Global, aim: Aim, words: &[&str]) -> Result<Call, Memory>
    ensures { IfOk result (λ call. call ≡ certificate_call (asking aim) (map (λ word. word.now) words.now)) }
{
    match words {
        [stem, label, certificate, files @ ..] => {
            certified_by(
                alloc,
                aim,
                stem,
                read_label(label.as_bytes()),
                certificate,
                files,
            )
        }
        _ => Ok(Call::Nothing),
    }
}

// The certificate of a trait's duty is wanted, over these files.
fn certified_by(
    alloc: Global,
    aim: Aim,
    stem: &str,
    label: Option<Label>,
    certificate: &str,
    words: &[&str],
) -> Result<Call, Memory>
    ensures { IfOk result (λ call. call
        ≡ certified_by (asking aim) stem.now label certificate.now (map (λ word. word.now) words.now)) }
{
    let Some(label) = label else {
        return Ok(Call::Nothing);
    };
    if !is_stem(stem.as_bytes()) || !is_certificate(certificate.as_bytes()) {
        return Ok(Call::Nothing);
    }
    let asked = verification_of(alloc, stem, label, certificate)?;
    on_files(alloc, question_for(aim, asked), words)
}

// What is asked of a certificate.
fn question_for(aim: Aim, asked: Verification) -> Question
    ensures { result ≡ asking aim asked }
{
    match aim {
        Aim::Verify => Question::Verify(asked),
        Aim::Trim => Question::Trim(asked),
    }
}

// What is to be shown by a certificate.
fn verification_of(
    alloc: Global,
    stem: &str,
    label: Label,
    certificate: &str,
) -> Result<Verification, Memory>
    ensures { IfOk result (λ asked. asked
        ≡ record { stem = stem.now; label = label; certificate = certificate.now }) }
{
    let certificate = EvidenceName::new(alloc, certificate)?;
    let stem = Name::new(alloc, stem.as_bytes())?;
    Ok(Verification {
        stem,
        label,
        certificate,
    })
}

// What these words ask for, where they say what is to be tried as a model.
pub(crate) fn model_call(alloc: Global, words: &[&str]) -> Result<Call, Memory>
    ensures { IfOk result (λ call. call ≡ trial_call (map (λ word. word.now) words.now)) }
{
    match words {
        [stem, model, files @ ..] => trial_on(alloc, stem, model, files),
        _ => Ok(Call::Nothing),
    }
}

// A text is to be tried as a model of a trait, over these files.
fn trial_on(alloc: Global, stem: &str, model: &str, words: &[&str]) -> Result<Call, Memory>
    ensures { IfOk result (λ call. call ≡ tried_by stem.now model.now (map (λ word. word.now) words.now)) }
{
    if !is_stem(stem.as_bytes()) || !is_model(model.as_bytes()) {
        return Ok(Call::Nothing);
    }
    let tried = trial_of(alloc, stem, model)?;
    on_files(alloc, Question::Model(tried), words)
}

// What is to be tried.
fn trial_of(alloc: Global, stem: &str, model: &str) -> Result<Trial, Memory>
    ensures { IfOk result (λ tried. tried ≡ record { stem = stem.now; model = model.now }) }
{
    let model = EvidenceName::new(alloc, model)?;
    let stem = Name::new(alloc, stem.as_bytes())?;
    Ok(Trial { stem, model })
}

// What these words ask for, where they are a certificate that is to be written in the second version.
pub(crate) fn migrate_call(alloc: Global, words: &[&str]) -> Result<Call, Memory>
    ensures { IfOk result (λ call. call ≡ migrate_call (map (λ word. word.now) words.now)) }
{
    match words {
        [certificate, others @ ..] => migrated_alone(alloc, certificate, others),
        _ => Ok(Call::Nothing),
    }
}

// The certificate of this name is to be written so, if there are no other words.
fn migrated_alone(alloc: Global, certificate: &str, others: &[&str]) -> Result<Call, Memory>
    ensures { IfOk result (λ call. call ≡ migrated_alone certificate.now (map (λ word. word.now) others.now)) }
{
    if others.is_empty() {
        migrated_by(alloc, certificate)
    } else {
        Ok(Call::Nothing)
    }
}

// The certificate of this name is to be written in the second version.
fn migrated_by(alloc: Global, certificate: &str) -> Result<Call, Memory>
    ensures { IfOk result (λ call. call ≡ migrated_by certificate.now) }
{
    if !is_certificate(certificate.as_bytes()) {
        return Ok(Call::Nothing);
    }
    let name = EvidenceName::new(alloc, certificate)?;
    Ok(Call::Migrate(name))
}

// Whether the word is a stem with `.mod` behind it.
fn is_model(word: &[u8]) -> bool
    ensures { result ≡ is_model word.now }
{
    4 <= word.len()
        && &word[word.len() - 4..] == b".mod".as_slice()
        && is_stem(&word[..word.len() - 4])
}

// Whether the word ends in `.cert`.
fn is_certificate(word: &[u8]) -> bool
    ensures { result ≡ is_certificate word.now }
{
    5 <= word.len() && &word[word.len() - 5..] == b".cert".as_slice()
}
