ghost use Rattle.std.specs.Prelude.{◌≡◌, ◌∷◌, [], IfNone, IfOk, IfSome, List, map};
ghost use Rattle.larch_derive.specs.Predicates.{HasEquation};
ghost use Rattle.larch_derive.specs.declared.builder.Builder.{Builder as is_builder};
ghost use Rattle.larch_prove_draft.specs.ProveInvariantBook.{Kept, own_boxes};
ghost use Rattle.larch_prove_draft.specs.ProveInvariantHolding.{HoldsLevels};
ghost use Rattle.larch_prove_draft.specs.ProveInvariantLeaving.{Leaving};
ghost use Rattle.larch_prove_draft.specs.ProveLevelsLevel.{IsLevel};
ghost use Rattle.larch_prove_settling.specs.Parts.{IsPopped};
ghost use Rattle.larch_prove_draft.specs.ProveMeaningLevels.{Level as Defined};
ghost use Rattle.larch_term.specs.Operator.{PlainOperator};
ghost use Rattle.larch_term.specs.Truth.{truth};
ghost use Rattle.larch_term.specs.declared.statement.Statement.{Statement};
ghost use Rattle.larch_term.specs.declared.statement.Theory.{Theory};

use larch_base::Memory;
use larch_derive::Builder;
use larch_prove_draft::from_prove_boxes::close_extras;
use larch_prove_draft::from_prove_levels::Level;
use larch_store::Store;
use larch_term::BuiltIn;
use std::alloc::Global;
use std::rc::Rc;

// Takes the nearest level below away, and answers a copy of it.
pub(crate) fn pop_level(alloc: Global, below: &mut Vec<Rc<Level>>) -> Result<Option<Level>, Memory>
    ensures none { IfOk result (λ popped. IfNone popped ((below.old.items ≡ []) × (below.new.items ≡ []))) }
    ensures some { IfOk result (λ popped. IfSome popped
        (IsPopped (map (λ level. level.value) below.old.items) (map (λ level. level.value) below.new.items))) }
{
    let Some(level) = below.pop() else {
        return Ok(None);
    };
    let copied = level.copy(alloc)?;
    Ok(Some(copied))
}

// Closes the boxes for constants of a level, whose first goal is true, as a line says: the line that says so outside of
// them.
pub(crate) fn leave_extras(
    alloc: Global,
    store: &Store,
    builder: &mut Builder,
    level: &Level,
    line: u64,
) -> Result<u64, Memory>
    ensures { IfOk result (λ n. (t : Theory) (s : Statement) (a : is_builder) (cs : List PlainOperator)
        (levels : List Defined) (k : Kept) (ks : List Kept) → HoldsLevels t s a cs levels (k ∷ ks) → IsLevel level.now k
        → Leaving t s builder.old (own_boxes k.book) ks → HasEquation builder.old line k.book.first truth
        → Leaving t s builder.new k.book.entrance ks × HasEquation builder.new n k.book.first truth) }
{
    if level.extras.as_slice().is_empty() {
        return Ok(line);
    }
    let first = store.to_term(&level.first)?;
    let truth = BuiltIn::True.constant(alloc)?;
    close_extras(
        alloc,
        builder,
        level.extras.as_slice(),
        &first,
        &truth,
        line,
    )
}
