//! What commands with a rewriting limit ask for.
ghost use Rattle.std.specs.Prelude.{◌≡◌, IfOk, map};
ghost use Rattle.larch_words.specs.Call.{complete_call, completed_by, derive_call, derived_by, limited_call};
ghost use Rattle.larch_words.specs.Call.{session_call};

use crate::call::{Call, DutyName, Question};
use crate::files::on_files;
use larch_base::{Label, Memory, Name, is_stem, read_label};
use std::alloc::Global;

// What a command that takes a rewriting limit asks for, with this one.
pub(crate) fn limited_call(
    alloc: Global,
    command: &str,
    limit: u32,
    words: &[&str],
) -> Result<Call, Memory>
    ensures { IfOk result (λ call. call ≡ limited_call command.now (map (λ word. word.now) words.now) limit) }
{
    match command {
        "session" => Ok(session_call(limit, words)),
        "replay" => on_files(alloc, Question::Replay(limit), words),
        "derive" => derive_call(alloc, limit, words),
        _ => complete_call(alloc, limit, words),
    }
}

// A session takes no words.
fn session_call(limit: u32, words: &[&str]) -> Call
    ensures { result ≡ session_call (map (λ word. word.now) words.now) limit }
{
    if words.is_empty() {
        Call::Session(limit)
    } else {
        Call::Nothing
    }
}

// What these words ask for, where they name a duty of which a certificate is wanted.
fn derive_call(alloc: Global, limit: u32, words: &[&str]) -> Result<Call, Memory>
    ensures { IfOk result (λ call. call ≡ derive_call (map (λ word. word.now) words.now) limit) }
{
    match words {
        [stem, label, files @ ..] => {
            derived_by(alloc, limit, stem, read_label(label.as_bytes()), files)
        }
        _ => Ok(Call::Nothing),
    }
}

// A certificate of a trait's duty is wanted, over these files.
fn derived_by(
    alloc: Global,
    limit: u32,
    stem: &str,
    label: Option<Label>,
    words: &[&str],
) -> Result<Call, Memory>
    ensures { IfOk result (λ call. call ≡ derived_by stem.now label (map (λ word. word.now) words.now) limit) }
{
    let Some(label) = label else {
        return Ok(Call::Nothing);
    };
    if !is_stem(stem.as_bytes()) {
        return Ok(Call::Nothing);
    }
    let stem = Name::new(alloc, stem.as_bytes())?;
    on_files(
        alloc,
        Question::Derive(DutyName { stem, label }, limit),
        words,
    )
}

// What these words ask for, where they name a trait whose equations rules are to decide.
fn complete_call(alloc: Global, limit: u32, words: &[&str]) -> Result<Call, Memory>
    ensures { IfOk result (λ call. call ≡ complete_call (map (λ word. word.now) words.now) limit) }
{
    match words {
        [stem, files @ ..] => completed_by(alloc, limit, stem, files),
        _ => Ok(Call::Nothing),
    }
}

// Rules are to decide the equations of a trait, over these files.
fn completed_by(alloc: Global, limit: u32, stem: &str, words: &[&str]) -> Result<Call, Memory>
    ensures { IfOk result (λ call. call ≡ completed_by stem.now (map (λ word. word.now) words.now) limit) }
{
    if !is_stem(stem.as_bytes()) {
        return Ok(Call::Nothing);
    }
    let stem = Name::new(alloc, stem.as_bytes())?;
    on_files(alloc, Question::Complete(stem, limit), words)
}
