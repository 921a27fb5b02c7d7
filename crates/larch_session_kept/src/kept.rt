ghost use Rattle.std.specs.Prelude.{◌≡◌, IfOk};
ghost use Rattle.larch_prove_meaning.specs.Scripts.{commands_of};
ghost use Rattle.larch_session_kept.specs.Kept.{replayed_of, task};
ghost use Rattle.larch_session_trail.specs.ProveOpeningStating.{duties_of};

use crate::base::Base;
use larch_base::{Label, Memory, Name, Sequence};
use larch_script_commands::{RawCommand, Script};
use larch_session_blocks::commands_for;
use larch_session_blocks::from_duties::Claim;
use larch_session_trail::Trail;
use larch_session_trail::from_prove::Lemma;
use larch_term::{Statement, Theory, copy_statement};
use std::alloc::Global;
use std::rc::Rc;

/// What is kept of a duty of the last report: what it was replayed by, and the states of its block. Records of one
/// trait share its script, and a theory is shared with the duty.
pub struct Kept {
    pub(crate) stem: Name,
    pub(crate) label: Label,
    pub(crate) theory: Rc<Theory>,
    pub(crate) statement: Statement,
    pub(crate) lemmas: Sequence<Lemma>,
    pub(crate) script: Rc<Script>,
    pub(crate) trail: Trail,
}

// By a call, so that a proof takes one apart in one place alone.
impl Drop for Kept {
    fn drop(self) {
        let Kept {
            stem: _stem,
            label: _label,
            theory: _theory,
            statement: _statement,
            lemmas: _lemmas,
            script: _script,
            trail: _trail,
        } = self;
    }
}

/// What the duties of a trait are replayed by: the trait's name, its script, and what the report before has kept.
#[derive(Drop)]
pub struct Replaying<'a> {
    pub stem: &'a Name,
    pub script: &'a Rc<Script>,
    pub before: &'a Base,
}

// What is kept of a duty with its lemmas and its states.
pub(crate) fn keep(
    alloc: Global,
    replaying: &Replaying<'_>,
    claim: &Claim,
    lemmas: Sequence<Lemma>,
    trail: Trail,
) -> Result<Kept, Memory>
    ensures replayed { IfOk result (λ kept. replayed_of kept
        ≡ task replaying.now.stem.now replaying.now.script.now.value claim.now (duties_of lemmas)) }
    ensures statement { IfOk result (λ kept. kept.statement ≡ claim.now.statement) }
    ensures trail { IfOk result (λ kept. kept.trail ≡ trail) }
{
    let statement = copy_statement(alloc, &claim.statement)?;
    let stem = replaying.stem.copy()?;
    let theory = claim.theory.clone()?;
    let script = replaying.script.clone()?;
    Ok(Kept {
        stem,
        label: claim.label,
        theory,
        statement,
        lemmas,
        script,
        trail,
    })
}

impl Kept {
    // The commands of the block.
    pub(crate) fn commands(&self) -> &[RawCommand]
        ensures { commands_of result.now ≡ (replayed_of self.now).block }
    {
        commands_for(&self.script, self.label)
    }
}
