ghost use Rattle.std.specs.Prelude.{◌≡◌, [], ◌∷◌, List, All, IfOk};
ghost use Rattle.larch_derive.specs.Predicates.{HasEquation};
ghost use Rattle.larch_derive.specs.declared.builder.Builder.{Builder as Built};
ghost use Rattle.larch_prove_boxes.specs.BoxLists.{boxes_with};
ghost use Rattle.larch_prove_invariant.specs.Book.{Kept, own_boxes};
ghost use Rattle.larch_prove_invariant.specs.Holding.{HoldsLevels};
ghost use Rattle.larch_prove_invariant.specs.Leaving.{Leaving};
ghost use Rattle.larch_prove_invariant.specs.ProveMeaningLevels.{Level};
ghost use Rattle.larch_term.specs.Operator.{PlainOperator};
ghost use Rattle.larch_term.specs.Truth.{truth};
ghost use Rattle.larch_term.specs.declared.statement.Statement.{Statement};
ghost use Rattle.larch_term.specs.declared.statement.Theory.{Theory};

use larch_base::Memory;
use larch_derive::{Builder, OpenBox};
use larch_prove_invariant::from_methods::push_outside;
use larch_term::Term;
use std::alloc::Global;

/// Closes a level's boxes for constants, the innermost first: the last of them. A line says that the level's first goal
/// is true, and so does the line that is answered, outside of them all. A refused call may leave some of them closed.
pub fn close_extras(
    alloc: Global,
    builder: &mut Builder,
    extras: &[OpenBox],
    left: &Term,
    right: &Term,
    line: u64,
) -> Result<u64, Memory>
    ensures { IfOk result (λ n. (t : Theory) (s : Statement) (a : Built) (cs : List PlainOperator)
        (levels : List Level) (k : Kept) (ks : List Kept) → HoldsLevels t s a cs levels (k ∷ ks)
        → boxes_with k.book.extras ≡ extras.now → All (λ x. x.hypotheses ≡ []) k.book.extras
        → Leaving t s builder.old (own_boxes k.book) ks → left.now ≡ k.book.first → right.now ≡ truth
        → HasEquation builder.old line left.now right.now
        → Leaving t s builder.new k.book.entrance ks × HasEquation builder.new n left.now right.now) }
{
    let mut said = line;
    let mut rest = extras;
    while let Some((innermost, outer)) = rest.split_last() {
        said = push_outside(alloc, builder, innermost, left, right, said)?;
        rest = outer;
    }
    Ok(said)
}
