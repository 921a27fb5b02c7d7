ghost use Rattle.std.specs.Prelude.{◌≡◌, ◌++◌, All, IfOk, IfErr, OnOk, map};
ghost use Rattle.larch_complete_meaning.specs.Pairs.{as_equation, pairs_in};
ghost use Rattle.larch_complete_pairs.specs.Said.{IsSaid, IsSaidRule, IsPairOf, Stops, WaitBehind, rule_in, sides_in};
ghost use Rattle.larch_derive.specs.Builder.{theory_in};
ghost use Rattle.larch_derive.specs.Predicates.{Extends, HasEquation};
ghost use Rattle.larch_pairs_critical.specs.Overlap.{IsApplication};
ghost use Rattle.larch_complete_meaning.specs.RewriteMeaningSides.{AreSidesOver, Sides};

use crate::said::{SaidEquation, SaidRule};
use larch_base::{Memory, Sequence};
use larch_certificate::Path;
use larch_derive::Builder;
use larch_derive_lines::{push_inst, push_repl, push_sym};
use larch_pairs::PairRefusal;
use larch_pairs_critical::{Pair, critical_pairs};
use larch_term::copy;
use std::alloc::Global;
use std::collections::VecDeque;

/// Puts the critical pairs of the second rule's left side in the first one's behind equations that wait, each with a
/// line that says it. `one` tells that both are one rule. `TooLarge` exactly where forming the pairs comes to that. The
/// builder has further lines, none of them bad; after a refusal some equations may wait.
pub fn push_pairs(
    alloc: Global,
    builder: &mut Builder,
    waiting: &mut VecDeque<SaidEquation>,
    first: &SaidRule,
    second: &SaidRule,
    one: bool,
) -> Result<(), PairRefusal>
    requires first { IsSaidRule builder.old first.now }
    requires second { IsSaidRule builder.old second.now }
    requires first_over { AreSidesOver (theory_in builder.old).operators (rule_in first.now) }
    requires second_over { AreSidesOver (theory_in builder.old).operators (rule_in second.now) }
    requires applies { IsApplication second.now.rule.left }
    requires waiting { All (IsSaid builder.old) waiting.old.items }
    ensures wait { OnOk result (WaitBehind (pairs_in (rule_in first.now) (rule_in second.now) one) waiting.old.items
        waiting.new.items) }
    ensures refused { IfErr result (Stops (pairs_in (rule_in first.now) (rule_in second.now) one)) }
    ensures said { OnOk result (All (IsSaid builder.new) waiting.new.items) }
    ensures extends { Extends builder.old builder.new }
{
    let pairs = critical_pairs(alloc, &first.rule, &second.rule, one)?;
    say_pairs(alloc, builder, waiting, pairs.as_slice(), first, second)?;
    Ok(())
}

// Puts critical pairs of two rules behind equations that wait, each with its line.
#[tactic(auto, using(larch_derive::proofs::Growth::extends_same))]
fn say_pairs(
    alloc: Global,
    builder: &mut Builder,
    waiting: &mut VecDeque<SaidEquation>,
    pairs: &[Pair],
    first: &SaidRule,
    second: &SaidRule,
) -> Result<(), Memory>
    requires first { IsSaidRule builder.old first.now }
    requires second { IsSaidRule builder.old second.now }
    requires pairs { All (IsPairOf builder.old (rule_in first.now) (rule_in second.now)) pairs.now }
    requires waiting { All (IsSaid builder.old) waiting.old.items }
    ensures wait { OnOk result
        (map sides_in waiting.new.items ≡ map sides_in waiting.old.items ++ map as_equation pairs.now) }
    ensures said { OnOk result (All (IsSaid builder.new) waiting.new.items) }
    ensures extends { Extends builder.old builder.new }
{
    for pair in pairs {
        let equation = say_pair(alloc, builder, pair, first.line, second.line)?;
        waiting.push_back(equation)?;
    }
    Ok(())
}

/// The equation of a critical pair, with the line that says it, from the lines of its rules: the second rule's instance
/// takes the place of its left side in that of the first rule.
#[tactic(auto, using(larch_derive::proofs::Growth::extends_same))]
pub fn say_pair(
    alloc: Global,
    builder: &mut Builder,
    pair: &Pair,
    first: u64,
    second: u64,
) -> Result<SaidEquation, Memory>
    ensures sides { IfOk result (λ e. sides_in e ≡ as_equation pair.now) }
    ensures says { IfOk result (λ e. (r q : Sides) → HasEquation builder.old first r.left r.right
        → HasEquation builder.old second q.left q.right → IsPairOf builder.old r q pair.now → IsSaid builder.new e) }
    ensures extends { (r q : Sides) → HasEquation builder.old first r.left r.right
        → HasEquation builder.old second q.left q.right → IsPairOf builder.old r q pair.now
        → Extends builder.old builder.new }
{
    let place = path_of(alloc, pair.place.as_slice())?;
    let whole = push_inst(alloc, builder, first, &pair.first)?;
    let back = push_sym(builder, whole)?;
    let inner = push_inst(alloc, builder, second, &pair.second)?;
    let changed = push_repl(builder, back, place, inner)?;
    let line = push_sym(builder, changed)?;
    let left = copy(alloc, &pair.left)?;
    let right = copy(alloc, &pair.right)?;
    Ok(SaidEquation { left, right, line })
}

// A place as lines write it.
fn path_of(alloc: Global, place: &[u32]) -> Result<Path, Memory>
    ensures { IfOk result (λ path. path ≡ place.now) }
{
    let mut path = Sequence::new(alloc);
    for number in place {
        path.push(u64::from(*number))?;
    }
    Ok(path)
}
