ghost use Rattle.std.specs.Prelude.{◌≡◌, ◌++◌, ◌∷◌, [], List, Contains, None, IfOk};
ghost use Rattle.larch_derive.specs.Predicates.{Known};
ghost use Rattle.larch_derive.specs.Words.{IsWordedTerm};
ghost use Rattle.larch_prove_boxes.specs.Extras.{AreToOpen, MakeEach, bare_box, bare_boxes, with_extras};
ghost use Rattle.larch_prove_invariant.specs.Book.{Kept, with_extra};
ghost use Rattle.larch_prove_invariant.specs.Holding.{HoldsLevels, Through, open_constants};
ghost use Rattle.larch_prove_invariant.specs.Unopened.{unopened_in};
ghost use Rattle.larch_prove_invariant.specs.ProveMeaningLevels.{Level};
ghost use Rattle.larch_term.specs.Operator.{PlainOperator};
ghost use Rattle.larch_term.specs.Sorts.{IsTermOver};
ghost use Rattle.larch_term.specs.declared.statement.Statement.{Statement};
ghost use Rattle.larch_term.specs.declared.statement.Theory.{Theory};
ghost use Rattle.larch_term.specs.Tree.{Tree};

use crate::to_open::constants_to_open;
use larch_base::{Memory, Sequence};
use larch_derive::{Builder, OpenBox, OpenBoxes};
use larch_prove_invariant::from_methods::open_constants;
use larch_term::{Operator, Operators, Term};
use std::alloc::Global;

/// Opens a box for one constant of the block whose own box isn't open, on a level on which no method runs, and answers
/// it. Behind it the level is held with that box.
pub fn open_constant(
    alloc: Global,
    builder: &mut Builder,
    constant: &Operator,
) -> Result<OpenBox, Memory>
    ensures constants { IfOk result (λ x. x.constants ≡ constant.now ∷ []) }
    ensures holds { IfOk result (λ x. (t : Theory) (s : Statement) (cs : List PlainOperator) (levels : List Level)
        (k : Kept) (ks : List Kept) → k.book.running ≡ None → Contains cs constant.now
        → (Contains (open_constants builder.old) constant.now → ⊥) → HoldsLevels t s builder.old cs levels (k ∷ ks)
        → Through builder.old (bare_box x ∷ []) builder.new
        × HoldsLevels t s builder.new cs levels (with_extra (bare_box x) k ∷ ks)) }
{
    let constants = alone(alloc, constant)?;
    open_constants(alloc, builder, &constants)
}

/// Opens a box for each constant of a term that is the block's and isn't among those that are open, in the order in
/// which they occur first, on a level on which no method runs, and answers the boxes, the outermost first. Behind it
/// the level is held with these boxes, and the term can be written.
pub fn open_constants_of(
    alloc: Global,
    builder: &mut Builder,
    block: &[Operator],
    opened: &[Operator],
    term: &Term,
) -> Result<OpenBoxes, Memory>
    ensures constants { IfOk result (λ xs. MakeEach xs (unopened_in block.now opened.now term.now)) }
    ensures holds { IfOk result (λ xs. (t : Theory) (s : Statement) (levels : List Level) (k : Kept) (ks : List Kept)
        → k.book.running ≡ None → open_constants builder.old ≡ opened.now
        → HoldsLevels t s builder.old block.now levels (k ∷ ks)
        → Through builder.old (bare_boxes xs) builder.new
        × HoldsLevels t s builder.new block.now levels (with_extras (bare_boxes xs) k ∷ ks)) }
    ensures opened { IfOk result (λ xs. (t : Theory) (s : Statement) (levels : List Level) (k : Kept) (ks : List Kept)
        → k.book.running ≡ None → open_constants builder.old ≡ opened.now
        → HoldsLevels t s builder.old block.now levels (k ∷ ks)
        → open_constants builder.new ≡ opened.now ++ unopened_in block.now opened.now term.now) }
    ensures known { IfOk result (λ xs. (t : Theory) (s : Statement) (levels : List Level) (k : Kept) (ks : List Kept)
        → k.book.running ≡ None → open_constants builder.old ≡ opened.now
        → HoldsLevels t s builder.old block.now levels (k ∷ ks) → IsTermOver (t.operators ++ block.now) term.now
        → IsWordedTerm term.now → Known builder.new term.now) }
    ensures stays { IfOk result (λ xs. (t : Theory) (s : Statement) (levels : List Level) (k : Kept) (ks : List Kept)
        (a : Tree) → k.book.running ≡ None → open_constants builder.old ≡ opened.now
        → HoldsLevels t s builder.old block.now levels (k ∷ ks) → Known builder.old a → Known builder.new a) }
{
    let constants = constants_to_open(alloc, block, opened, term)?;
    open_each(alloc, builder, constants.as_slice())
}

// Opens a box for each of these constants in turn, none of which is open, and answers the boxes, the outermost first.
fn open_each(
    alloc: Global,
    builder: &mut Builder,
    constants: &[Operator],
) -> Result<OpenBoxes, Memory>
    ensures constants { IfOk result (λ xs. MakeEach xs constants.now) }
    ensures holds { IfOk result (λ xs. (t : Theory) (s : Statement) (cs : List PlainOperator) (levels : List Level)
        (k : Kept) (ks : List Kept) → k.book.running ≡ None
        → AreToOpen cs (open_constants builder.old) constants.now → HoldsLevels t s builder.old cs levels (k ∷ ks)
        → Through builder.old (bare_boxes xs) builder.new
        × HoldsLevels t s builder.new cs levels (with_extras (bare_boxes xs) k ∷ ks)) }
{
    let mut boxes = Sequence::new(alloc);
    for constant in constants {
        let opened = open_constant(alloc, builder, constant)?;
        boxes.push(opened)?;
    }
    Ok(boxes)
}

// One operator.
fn alone(alloc: Global, operator: &Operator) -> Result<Operators, Memory>
    ensures { IfOk result (λ fs. fs ≡ operator.now ∷ []) }
{
    let mut operators = Sequence::new(alloc);
    let copied = operator.copy()?;
    operators.push(copied)?;
    Ok(operators)
}
