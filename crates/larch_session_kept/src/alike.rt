ghost use Rattle.std.specs.Prelude.{◌≡◌, ◌↔◌, IfNone, IfSome, IsTrue, map};
ghost use Rattle.larch_script_commands.specs.Bare.{bare};
ghost use Rattle.larch_session_kept.specs.Kept.{IsHelpFor, redone_behind, task};
ghost use Rattle.larch_session_sources.specs.Steps.{block_steps};
ghost use Rattle.larch_session_trail.specs.ProveOpeningStating.{duties_of};

use crate::kept::{Kept, Replaying};
use larch_script_commands::{Script, same_commands};
use larch_session_blocks::from_duties::Claim;
use larch_session_trail::from_prove::Lemma;
use larch_term::{same_statement, same_theory};

// What was kept of a duty, if its replay began with the same theory, statement, lemmas and preamble.
pub(crate) fn find_help<'a>(
    replaying: &Replaying<'a>,
    claim: &Claim,
    lemmas: &[Lemma],
) -> Option<&'a Kept>
    ensures some { IfSome result (λ kept. IsHelpFor replaying.now.before.now
        (task replaying.now.stem.now replaying.now.script.now.value claim.now (duties_of lemmas.now)) kept.now) }
    ensures none { IfNone result (redone_behind replaying.now.before.now
        (task replaying.now.stem.now replaying.now.script.now.value claim.now (duties_of lemmas.now))
        ≡ block_steps replaying.now.script.now.value claim.now.label) }
{
    let Some(kept) = replaying.before.find(replaying.stem, claim.label) else {
        return None;
    };
    if !begins_alike(kept, claim, lemmas, replaying.script) {
        return None;
    }
    Some(kept)
}

// Whether a duty begins as that of a record did.
fn begins_alike(kept: &Kept, claim: &Claim, lemmas: &[Lemma], script: &Script) -> bool
    ensures { IsTrue result ↔ ((kept.now.theory.value ≡ claim.now.theory)
        × ((kept.now.statement ≡ claim.now.statement)
        × ((duties_of kept.now.lemmas ≡ duties_of lemmas.now)
        × (map bare kept.now.script.value.preamble ≡ map bare script.now.preamble)))) }
{
    same_theory(&kept.theory, &claim.theory)
        && same_statement(&kept.statement, &claim.statement)
        && same_lemmas(kept.lemmas.as_slice(), lemmas)
        && same_commands(&kept.script.preamble, &script.preamble)
}

// Whether lemmas are equal.
fn same_lemmas(left: &[Lemma], right: &[Lemma]) -> bool
    ensures { IsTrue result ↔ (duties_of left.now ≡ duties_of right.now) }
{
    if left.len() != right.len() {
        return false;
    }
    for i in 0..left.len() {
        if !same_lemma(&left[i], &right[i]) {
            return false;
        }
    }
    true
}

// Whether two lemmas are equal.
fn same_lemma(left: &Lemma, right: &Lemma) -> bool
    ensures { IsTrue result ↔ ((left.now.number ≡ right.now.number) × (left.now.statement ≡ right.now.statement)) }
{
    left.number == right.number && same_statement(&left.statement, &right.statement)
}
