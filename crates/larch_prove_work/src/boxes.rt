ghost use Rattle.std.specs.Prelude.{◌≡◌, ◌++◌, List, OnOk};
ghost use Rattle.larch_prove_settling.specs.ProveDraftDraft.{Stands};
ghost use Rattle.larch_prove_settling.specs.ProveInvariantBook.{Kept};
ghost use Rattle.larch_prove_settings.specs.ProveMeaningLevels.{Proof};
ghost use Rattle.larch_prove_work.specs.Written.{IsOpenedFor, MayWrite};
ghost use Rattle.larch_store.specs.Numbered.{Numbered};
ghost use Rattle.larch_term.specs.declared.statement.Statement.{Statement as is_statement};
ghost use Rattle.larch_term.specs.declared.statement.Theory.{Theory as is_theory};

use crate::opened::constants_of_levels;
use larch_base::Memory;
use larch_derive::OpenBoxes;
use larch_prove_settling::from_prove_boxes::open_constants_of;
use larch_prove_settling::from_prove_draft::Draft;
use larch_term::{Operator, Term};
use std::alloc::Global;

/// Opens a box on the current level for each constant of a term whose own box isn't open: then the term can be written.
/// The constants of the block are these. Where memory runs out the draft may not be used.
pub fn open_boxes_for(
    alloc: Global,
    draft: &mut Draft,
    block: &[Operator],
    term: &Term,
) -> Result<(), Memory>
    ensures opened { OnOk result ((t : is_theory) (s : is_statement) (store : List Numbered) (p : Proof) (k : Kept)
        (ks : List Kept) → Stands t s store draft.old p k ks → MayWrite t block.now term.now p
        → IsOpenedFor t s store draft.old draft.new p ks term.now) }
    ensures below { draft.new.below ≡ draft.old.below }
{
    let opened = constants_of_levels(alloc, draft)?;
    let Draft {
        builder,
        current,
        ..
    } = draft;
    let boxes = open_constants_of(alloc, builder, block, opened.as_slice(), term)?;
    push_boxes(&mut current.extras, boxes)?;
    Ok(())
}

// Puts boxes behind others.
fn push_boxes(boxes: &mut OpenBoxes, further: OpenBoxes) -> Result<(), Memory>
    ensures { OnOk result (boxes.new ≡ boxes.old ++ further) }
{
    for open_box in further.into_vec() {
        boxes.push(open_box)?;
    }
    Ok(())
}
