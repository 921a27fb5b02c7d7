ghost use Rattle.std.specs.Prelude.{◌<◌, IfOk, List};
ghost use Rattle.std.specs.List.{AllZip};
ghost use Rattle.larch_calculus.specs.Observation.{Observation};
ghost use Rattle.larch_derive.specs.Predicates.{Extends, HasEquation};
ghost use Rattle.larch_derive_clauses.specs.Showing.{ShowSame, ShowsSame};
ghost use Rattle.larch_methods.specs.Observers.{ByObservers, HasShorterNames, ShowsObservation};
ghost use Rattle.larch_term.specs.Tree.{Tree};

use crate::naming::{letters_above, variables_for};
use larch_base::{Memory, Sequence};
use larch_certificate::Numbers;
use larch_derive::{Builder, OpenBox};
use larch_derive_clauses::from_derive_boxes::push_fresh;
use larch_derive_clauses::push_observe;
use larch_derive_lines::push_axiom;
use larch_term::Term;
use std::alloc::Global;

/// A line that says that two terms are equal, by observers: by the number of the clause that partitions their sort, and
/// the closed boxes of the observations, in order, with their constants. A refused call may leave lines behind, none of
/// them bad.
#[tactic(auto, using(larch_derive::proofs::Growth::extends_same))]
pub fn finish_partition(
    alloc: Global,
    builder: &mut Builder,
    clause: u64,
    left: &Term,
    right: &Term,
    boxes: &[OpenBox],
) -> Result<u64, Memory>
    ensures says { IfOk result (λ n. ByObservers builder.old clause left.now right.now boxes.now
        → HasEquation builder.new n left.now right.now) }
    ensures extends { ByObservers builder.old clause left.now right.now boxes.now
        → Extends builder.old builder.new }
{
    let letters = letters_above(alloc, left, right)?;
    let lines = push_all_observed(alloc, builder, letters, boxes)?;
    let stated = push_axiom(builder, clause)?;
    let line = push_observe(builder, stated, left, right, lines)?;
    Ok(line)
}

// A line for each of the boxes. In the places of its constants stand variables whose names have at least so many
// letters.
#[tactic(auto, using(larch_derive::proofs::Growth::extends_same))]
fn push_all_observed(
    alloc: Global,
    builder: &mut Builder,
    letters: usize,
    boxes: &[OpenBox],
) -> Result<Numbers, Memory>
    requires { 0 < letters }
    ensures shows { IfOk result (λ ns. (l r : Tree) (ws : List Observation) → HasShorterNames letters l
        → HasShorterNames letters r → AllZip (ShowsObservation builder.old l r) ws boxes.now
        → ShowSame builder.new l r ws ns) }
    ensures extends { (l r : Tree) (ws : List Observation) → HasShorterNames letters l
        → HasShorterNames letters r → AllZip (ShowsObservation builder.old l r) ws boxes.now
        → Extends builder.old builder.new }
{
    let mut lines = Sequence::new(alloc);
    for observed in boxes {
        let line = push_observed(alloc, builder, letters, observed)?;
        lines.push(line)?;
    }
    Ok(lines)
}

// The line of one box.
#[tactic(auto, using(larch_derive::proofs::Growth::extends_same))]
fn push_observed(
    alloc: Global,
    builder: &mut Builder,
    letters: usize,
    observed: &OpenBox,
) -> Result<u64, Memory>
    requires { 0 < letters }
    ensures shows { IfOk result (λ n. (l r : Tree) (w : Observation) → HasShorterNames letters l
        → HasShorterNames letters r → ShowsObservation builder.old l r w observed.now
        → ShowsSame builder.new l r w n) }
    ensures extends { (l r : Tree) (w : Observation) → HasShorterNames letters l
        → HasShorterNames letters r → ShowsObservation builder.old l r w observed.now
        → Extends builder.old builder.new }
{
    let variables = variables_for(alloc, letters, observed.constants.as_slice())?;
    let line = push_fresh(builder, observed.number, variables)?;
    Ok(line)
}
