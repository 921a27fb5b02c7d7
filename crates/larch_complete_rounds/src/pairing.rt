ghost use Rattle.std.specs.Prelude.{All, IfErr, OnOk, map};
ghost use Rattle.larch_complete_meaning.specs.Pairs.{pairs_of_new};
ghost use Rattle.larch_complete_pairs.specs.Said.{IsSaid, Stops, WaitBehind, rule_in};
ghost use Rattle.larch_complete_rounds.specs.Certified.{IsRuleIn, sides_behind};
ghost use Rattle.larch_derive.specs.Predicates.{Extends};

use crate::certified::CertifiedRule;
use larch_complete_pairs::{SaidEquation, SaidRule, push_pairs};
use larch_derive::Builder;
use larch_pairs::PairRefusal;
use std::alloc::Global;
use std::collections::VecDeque;

/// Puts the critical pairs of a new rule behind equations that wait, each with a line that says it: those with each of
/// the other rules in order, and at the end those with itself. `TooLarge` exactly where forming them comes to that. The
/// builder has further lines, none of them bad; after a refusal some equations may wait.
#[tactic(auto, using(larch_derive::proofs::Growth::extends_same))]
pub fn push_new_pairs(
    alloc: Global,
    builder: &mut Builder,
    waiting: &mut VecDeque<SaidEquation>,
    rules: &[CertifiedRule],
    new: &SaidRule,
) -> Result<(), PairRefusal>
    requires rules { All (λ r. IsRuleIn builder.old r.said) rules.now }
    requires new { IsRuleIn builder.old new.now }
    requires waiting { All (IsSaid builder.old) waiting.old.items }
    ensures wait { OnOk result (WaitBehind (pairs_of_new (map sides_behind rules.now) (rule_in new.now))
        waiting.old.items waiting.new.items) }
    ensures refused { IfErr result (Stops (pairs_of_new (map sides_behind rules.now) (rule_in new.now))) }
    ensures said { OnOk result (All (IsSaid builder.new) waiting.new.items) }
    ensures extends { Extends builder.old builder.new }
{
    for rule in rules {
        push_pairs(alloc, builder, waiting, &rule.said, new, false)?;
        push_pairs(alloc, builder, waiting, new, &rule.said, false)?;
    }
    push_pairs(alloc, builder, waiting, new, new, true)?;
    Ok(())
}
