ghost use Rattle.std.specs.Prelude.{◌≡◌, ◌+◌, ◌++◌, ◌∷◌, List, length, IfOk};
ghost use Rattle.larch_derive.specs.Predicates.{HasEquation, Extends, Known};
ghost use Rattle.larch_term.specs.Operator.{PlainOperator};
ghost use Rattle.larch_term.specs.Tree.{Tree, app, forest_of};
ghost use Rattle.larch_derive_lines.specs.Way.{Leads};

use crate::rules::{push_refl, push_repl, push_trans};
use larch_derive::Builder;
use larch_term::Term;
use larch_term::from_base::{Memory, Sequence};
use std::alloc::Global;

/// A line that says that the term at which a way begins equals the one to which a further line leads. A refused line
/// changes nothing.
#[tactic(auto, using(larch_derive::proofs::Growth::extends_same, crate::proofs::Ways::led_further))]
pub fn push_further(
    alloc: Global,
    builder: &mut Builder,
    way: Option<u64>,
    line: u64,
) -> Result<u64, Memory>
    ensures says { IfOk result (λ n. (s t u : Tree) → Leads builder.old way s t → HasEquation builder.old line t u
        → HasEquation builder.new n s u) }
    ensures extends { (s t u : Tree) → Leads builder.old way s t → HasEquation builder.old line t u
        → Extends builder.old builder.new }
{
    match way {
        None => Ok(line),
        Some(way) => {
            let number = push_trans(alloc, builder, way, line)?;
            Ok(number)
        }
    }
}

/// A line that says where a way leads from a known term. A refused line changes nothing.
#[tactic(auto, using(larch_derive::proofs::Growth::extends_same, crate::proofs::Ways::led_nowhere))]
pub fn push_way(builder: &mut Builder, start: &Term, way: Option<u64>) -> Result<u64, Memory>
    ensures says { IfOk result (λ n. (t : Tree) → Known builder.old start.now → Leads builder.old way start.now t
        → HasEquation builder.new n start.now t) }
    ensures extends { (t : Tree) → Known builder.old start.now → Leads builder.old way start.now t
        → Extends builder.old builder.new }
{
    match way {
        Some(line) => Ok(line),
        None => {
            let number = push_refl(builder, start)?;
            Ok(number)
        }
    }
}

/// A line that says what another one says, with the argument with a number, counted from 1, of the right side changed
/// as a further line says. A refused line changes nothing.
#[tactic(auto, using(larch_derive::proofs::Growth::extends_same))]
pub fn push_argument(
    alloc: Global,
    builder: &mut Builder,
    line: u64,
    number: u64,
    by: u64,
) -> Result<u64, Memory>
    ensures says { IfOk result (λ n. (s t u : Tree) (f : PlainOperator) (done rest : List Tree)
        → number ≡ length done + 1 → HasEquation builder.old line s (app f (forest_of (done ++ t ∷ rest)))
        → HasEquation builder.old by t u → HasEquation builder.new n s (app f (forest_of (done ++ u ∷ rest)))) }
    ensures extends { (s t u : Tree) (f : PlainOperator) (done rest : List Tree)
        → number ≡ length done + 1 → HasEquation builder.old line s (app f (forest_of (done ++ t ∷ rest)))
        → HasEquation builder.old by t u → Extends builder.old builder.new }
{
    let mut place = Sequence::new(alloc);
    place.push(number)?;
    let changed = push_repl(builder, line, place, by)?;
    Ok(changed)
}
