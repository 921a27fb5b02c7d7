ghost use Rattle.std.specs.Prelude.{◌≡◌, ◌<◌, ◌≤◌, ◌+◌, ◌-◌, ◌^◌, ◌++◌, ◌∷◌, [], List, IfOk, length, map, min, take};
ghost use Rattle.std.specs.Prelude.{Ok};
ghost use Rattle.larch_session_derive_meaning.specs.FlatSourcesSources.{name_at};
ghost use Rattle.larch_prove_meaning.specs.Redo.{redo};
ghost use Rattle.larch_prove_meaning.specs.Reports.{Answered, all_answered};
ghost use Rattle.larch_script_commands.specs.Worded.{WordedScript};
ghost use Rattle.larch_session_replay.specs.SessionSourcesLooked.{IsRead, steps_at};
ghost use Rattle.larch_session_derive_meaning.specs.Derived.{Derives, IsDerived, IsDerivedOf, answer_with, answers_by};
ghost use Rattle.larch_session_derive_meaning.specs.Ordered.{AreInOrder};
ghost use Rattle.larch_session_derive_meaning.specs.SessionLawClaims.{AreClaims};
ghost use Rattle.larch_session_derive_meaning.specs.SessionMeaningFiles.{script_among};
ghost use Rattle.larch_session_derive_meaning.specs.SessionMeaningRedone.{replayed_on};
ghost use Rattle.larch_session_derive_meaning.specs.SessionMeaningTraits.{script_duty};
ghost use Rattle.larch_session_derive.specs.Parts.{AreReplayed};
ghost use Rattle.larch_session_replay.specs.Replayed.{answer_of};
ghost use Rattle.larch_session_replay.specs.SessionSourcesSteps.{script_steps};
ghost use Rattle.larch_session_replay.specs.declared.replayed.Replayed.{Replayed as was_replayed};

use crate::derivation::derive_duty;
use larch_base::{Label, Memory, Name, Sequence, Steps};
use larch_certificate::Certificate;
use larch_script_commands::Script;
use larch_session_derive_meaning::from_duties::{Claims, place_of, trait_claims};
use larch_session_derive_meaning::from_flat::flatten;
use larch_session_derive_meaning::from_traits::{Files, TraitRefusal, read_files};
use larch_session_replay::from_session_sources::{Looked, script_among};
use larch_session_replay::{Replayed, replay_duties, steps_of};
use std::alloc::Global;
use std::sync::ledger::Ledger;

/// What is derived of the duty of a trait with a label among files, and how many steps that took, which stands still at
/// the last number. Of the trait, the duties up to that one are replayed.
pub fn derive_on<L: Ledger>(
    alloc: Global,
    files: &Files,
    limit: u32,
    stem: &Name,
    label: Label,
    steps: &mut Steps<L>,
) -> Result<(Option<Certificate>, u64), Memory>
    ensures derived { IfOk result (λ answer. Derives limit files.now stem.now label answer.0) }
    ensures work { IfOk result (λ answer. answer.1 ≡ min (steps.new - steps.old) (2 ^ 64 - 1)) }
    ensures least { steps.old ≤ steps.new }
    ensures most { steps.new ≤ steps.old + redo [] (replayed_on limit files.now) }
{
    let sources = read_files(alloc, files)?;
    let flat_traits = flatten(alloc, &sources)?;
    let looked = Looked {
        files,
        sources: &sources,
        flat_traits: &flat_traits,
        limit,
    };
    let Some(number) = sources.number_of(stem) else {
        return Ok((None, 0));
    };
    derive_at(alloc, &looked, number, label, steps)
}

// The same for the trait of the file with a number.
fn derive_at<L: Ledger>(
    alloc: Global,
    looked: &Looked<'_>,
    number: usize,
    label: Label,
    steps: &mut Steps<L>,
) -> Result<(Option<Certificate>, u64), Memory>
    requires read { IsRead looked.now }
    requires number { number < length looked.now.sources.now }
    ensures derived { IfOk result (λ answer. Derives looked.now.limit looked.now.files.now
        (name_at looked.now.sources.now number) label answer.0) }
    ensures work { IfOk result (λ answer. answer.1 ≡ min (steps.new - steps.old) (2 ^ 64 - 1)) }
    ensures least { steps.old ≤ steps.new }
    ensures most { steps.new ≤ steps.old + steps_at looked.now number }
{
    let stem = looked.sources.name(number);
    match trait_claims(alloc, looked.sources, looked.flat_traits, number) {
        Ok(claims) => derive_claimed(alloc, looked, stem, claims, label, steps),
        Err(TraitRefusal::Wrong(_, _)) => Ok((None, 0)),
        Err(TraitRefusal::Memory) => Err(Memory),
    }
}

// The same for a trait that claims this, by its script among the files.
fn derive_claimed<L: Ledger>(
    alloc: Global,
    looked: &Looked<'_>,
    stem: &Name,
    claims: Claims,
    label: Label,
    steps: &mut Steps<L>,
) -> Result<(Option<Certificate>, u64), Memory>
    requires claims { AreClaims (map script_duty claims) }
    requires order { AreInOrder (map script_duty claims) }
    ensures derived { IfOk result (λ answer. IsDerivedOf (answer_with label
        (answers_by looked.now.limit (script_among looked.now.files.now stem.now) (Ok claims))) answer.0) }
    ensures work { IfOk result (λ answer. answer.1 ≡ min (steps.new - steps.old) (2 ^ 64 - 1)) }
    ensures least { steps.old ≤ steps.new }
    ensures most { steps.new
        ≤ steps.old + script_steps (script_among looked.now.files.now stem.now) (map script_duty claims) }
{
    let script = script_among(alloc, looked.files, stem.bytes())?;
    match place_of(claims.as_slice(), label) {
        Some(place) => derive_last(alloc, front(claims, place), &script, looked.limit, steps),
        None => Ok((None, 0)),
    }
}

// The duties up to the one at a place.
fn front(claims: Claims, place: usize) -> Claims
    requires { place < length claims }
    ensures { result ≡ take (place + 1) claims }
{
    let mut claims = claims.into_vec();
    claims.truncate(place + 1);
    Sequence::from_vec(claims)
}

// What is derived of the last of these duties, by a script.
fn derive_last<L: Ledger>(
    alloc: Global,
    claims: Claims,
    script: &Script,
    limit: u32,
    steps: &mut Steps<L>,
) -> Result<(Option<Certificate>, u64), Memory>
    requires claims { AreClaims (map script_duty claims) }
    requires order { AreInOrder (map script_duty claims) }
    requires worded { WordedScript script.now }
    requires some { 0 < length claims }
    ensures derived { IfOk result (λ answer. (before : List Answered) (last : Answered)
        → all_answered limit script.now [] 1 (map script_duty claims) ≡ before ++ last ∷ []
        → IsDerived last answer.0) }
    ensures work { IfOk result (λ answer. answer.1 ≡ min (steps.new - steps.old) (2 ^ 64 - 1)) }
    ensures least { steps.old ≤ steps.new }
    ensures most { steps.new ≤ steps.old + script_steps script.now (map script_duty claims) }
{
    let replays = replay_duties(alloc, claims, script, limit, steps)?;
    let derived = derive_replayed(alloc, replays.as_slice())?;
    Ok((derived, steps_of(replays.as_slice())))
}

// What is derived of the last of these duties that were replayed.
fn derive_replayed(alloc: Global, replays: &[Replayed]) -> Result<Option<Certificate>, Memory>
    requires replayed { AreReplayed replays.now }
    requires some { 0 < length replays.now }
    ensures { IfOk result (λ derived. (before : List was_replayed) (last : was_replayed)
        → replays.now ≡ before ++ last ∷ [] → IsDerived (answer_of last) derived) }
{
    match replays {
        [earlier @ .., own] => derive_duty(alloc, own, earlier),
        [] => unreachable!(),
    }
}
