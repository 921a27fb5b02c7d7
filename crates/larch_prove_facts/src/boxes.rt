ghost use Rattle.std.specs.Prelude.{◌≡◌, All, List, OnOk};
ghost use Rattle.larch_derive.specs.Predicates.{Known};
ghost use Rattle.larch_prove_work.specs.ProveDraftDraft.{Stands};
ghost use Rattle.larch_prove_facts.specs.Derivation.{StandsFor};
ghost use Rattle.larch_prove_facts.specs.Entries.{MayStand};
ghost use Rattle.larch_prove_work.specs.ProveInvariantBook.{Kept};
ghost use Rattle.larch_prove_meaning.specs.Levels.{Proof};
ghost use Rattle.larch_store.specs.Numbered.{Numbered};
ghost use Rattle.larch_term.specs.declared.statement.Statement.{Statement as is_statement};
ghost use Rattle.larch_term.specs.declared.statement.Theory.{Theory as is_theory};

use larch_base::Memory;
use larch_prove_work::from_prove_draft::Draft;
use larch_prove_work::open_boxes_for;
use larch_term::{Entry, Operator};
use std::alloc::Global;

// Opens a box on the current level for each constant of the block that stands in the terms of entries and whose own box
// isn't open; then these terms can be written.
pub(crate) fn open_boxes(
    alloc: Global,
    draft: &mut Draft,
    block: &[Operator],
    entries: &[Entry],
) -> Result<(), Memory>
    ensures { OnOk result ((t : is_theory) (s : is_statement) (store : List Numbered) (p : Proof) (k : Kept)
        (ks : List Kept) → Stands t s store draft.old p k ks → p.constants ≡ block.now
        → All (MayStand t block.now) entries.now
        → StandsFor t s store draft.new p ks × All (λ e. Known draft.new.builder e.term) entries.now) }
{
    for entry in entries {
        open_boxes_for(alloc, draft, block, &entry.term)?;
    }
    Ok(())
}
