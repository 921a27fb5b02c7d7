ghost use Rattle.std.specs.Prelude.{IfErr, List, None, OnErr, OnOk, ◌≡◌};
ghost use Rattle.larch_prove_resuming.specs.ProveDraftDraft.{IsProofOf, Leads};
ghost use Rattle.larch_prove_meaning.specs.Levels.{Proof};
ghost use Rattle.larch_prove_meaning.specs.Replays.{mark_command};
ghost use Rattle.larch_prove_meaning.specs.Steps.{check_boxes};
ghost use Rattle.larch_prove_beginning.specs.ProveSettingsTelling.{Tells};
ghost use Rattle.larch_store.specs.Numbered.{Numbered};
ghost use Rattle.larch_term.specs.declared.statement.Statement.{Statement};
ghost use Rattle.larch_term.specs.declared.statement.Theory.{Theory};

use larch_base::Code;
use larch_prove_beginning::from_prove_settings::CommandRefusal;
use larch_prove_resuming::from_prove_draft::Draft;

// A mark: where boxes are checked, it must be the next one that waits.
pub(crate) fn take_mark(draft: &mut Draft, is_proved: bool) -> Result<(), CommandRefusal>
    ensures taken { OnOk result ((t : Theory) (s : Statement) (store : List Numbered) (p : Proof)
        → IsProofOf t s store draft.old p → Leads t s store draft.new p None (mark_command is_proved p)) }
    ensures refused { IfErr result (λ refusal. (t : Theory) (s : Statement) (store : List Numbered) (p : Proof)
        → IsProofOf t s store draft.old p → Tells (mark_command is_proved p) refusal) }
    ensures err { OnErr result (draft.new ≡ draft.old) }
{
    if !draft.checking {
        return Ok(());
    }
    let next = draft.waiting.first().copied();
    if next != Some(is_proved) {
        return Err(CommandRefusal::Wrong(Code::Mark));
    }
    let _ = draft.waiting.remove(0);
    Ok(())
}

// Boxes are checked from now on; or aren't, and the marks that wait are forgotten.
pub(crate) fn check_boxes(draft: &mut Draft, on: bool)
    ensures { (t : Theory) (s : Statement) (store : List Numbered) (p : Proof)
        → IsProofOf t s store draft.old p → IsProofOf t s store draft.new (check_boxes on p) }
{
    draft.checking = on;
    if on {
        return;
    }
    draft.waiting.clear();
}
