ghost use Rattle.std.specs.Prelude.{◌≡◌, ◌+◌, List, All, Some, false, IfOk, IfErr, OnOk};
ghost use Rattle.larch_rewrite_step.specs.Encoding.{AreEncodings, AreOfStore};
ghost use Rattle.larch_rewrite_step.specs.Holding.{RuleHolds};
ghost use Rattle.larch_derive.specs.Predicates.{Extends, Known};
ghost use Rattle.larch_rewrite_meaning.specs.Rewriting.{rewritten_once};
ghost use Rattle.larch_rewrite_meaning.specs.Sides.{Sides};
ghost use Rattle.larch_rewrite_meaning.specs.Work.{is_large};
ghost use Rattle.larch_rewrite_law.specs.Levels.{root_work};
ghost use Rattle.larch_rewrite_step.specs.RewriteMatchRule.{right_of};
ghost use Rattle.larch_rewrite_step.specs.RewriteMatchBound.{entries_of};
ghost use Rattle.larch_rewrite_step.specs.RewriteMatchSearch.{IsFoundIn, IsBy};
ghost use Rattle.larch_rewrite.specs.Level.{HaveOneStart, IsTurnOf, work_at};
ghost use Rattle.larch_rewrite.specs.Refusal.{TellsEvent};
ghost use Rattle.larch_rewrite.specs.RuleSet.{AreSaid, sides_in};
ghost use Rattle.larch_rewrite.specs.Ways.{IsWayTo};
ghost use Rattle.larch_rewrite.specs.declared.level.Turn.TheVariants.{Root as at_root};
ghost use Rattle.larch_store.specs.Numbered.{term_of};
ghost use Rattle.larch_store.specs.Stored.{Belongs, Grows};
ghost use Rattle.larch_term.specs.Substitution.{instance_of};
ghost use Rattle.larch_term.specs.Tree.{Tree};
ghost use Rattle.larch_rewrite_step.specs.DeriveLinesWay.{Leads};

use crate::kept::Kept;
use crate::layered_rules::LayeredRules;
use crate::level::{Level, Means, Turn};
use crate::refusal::RewriteRefusal;
use crate::searching::first_redex;
use larch_derive::Builder;
use larch_rewrite_step::from_derive_lines::push_further;
use larch_rewrite_step::from_rewrite_match::Match;
use larch_rewrite_step::{Applied, apply_match};
use larch_store::Store;
use std::alloc::Global;

/// The turn that comes after `Turn::Root`: the arguments of the level's term are normal, so the first rule that applies
/// at its root is applied and the work on what that makes begins, or no rule applies and the term is the normal form.
/// `kept` has the built-in rows as well, and makes those at a sort when it first comes up.
#[tactic(auto, using(larch_derive::proofs::Growth::extends_same, larch_store::proofs::Growth::grows_refl, crate::proofs::Roots::root_is_normal, crate::proofs::Roots::root_is_made, crate::proofs::Roots::root_tells))]
pub(crate) fn rewrite(
    store: &mut Store,
    builder: &mut Builder,
    rules: &LayeredRules,
    kept: &Kept,
    level: Level,
    means: &mut Means,
) -> Result<Turn, RewriteRefusal>
    requires turn { IsTurnOf store.old (at_root level) }
    requires encodings { AreOfStore store.old means.old.encodings }
    ensures start { IfOk result (λ t. HaveOneStart t (at_root level)) }
    ensures turn { IfOk result (IsTurnOf store.new) }
    ensures work { IfOk result (λ t.
        work_at (sides_in rules.now) (at_root level) means.old.left ≡ work_at (sides_in rules.now) t means.new.left) }
    ensures refused { IfErr result (TellsEvent (work_at (sides_in rules.now) (at_root level) means.old.left)) }
    ensures says { IfOk result (λ t. (x : Tree) → AreSaid builder.old rules.now
        → IsWayTo builder.old x (at_root level)
        → AreEncodings builder.old means.old.encodings → IsWayTo builder.new x t) }
    ensures extends { (x : Tree) → AreSaid builder.old rules.now → IsWayTo builder.old x (at_root level)
        → AreEncodings builder.old means.old.encodings → Extends builder.old builder.new }
    ensures grows { Grows store.old store.new }
    ensures belong { AreOfStore store.new means.new.encodings }
    ensures encodings { AreEncodings builder.old means.old.encodings → AreEncodings builder.old means.new.encodings }
{
    store.sizes_are_told();
    let alloc = kept.allocator();
    let tables = kept.rows_with(&level.term)?;
    let rows = tables.rows_for(&level.term)?;
    let Some(found) = first_redex(alloc, store, rows, rules, &level.term)? else {
        return Ok(Turn::Finish(level));
    };
    let level = apply(alloc, store, builder, &found, level, means)?;
    Ok(Turn::Begin(level))
}

// A level whose term is what a rule that applies makes of it; that takes one from what is left of the budget.
#[tactic(auto, using(larch_derive::proofs::Growth::extends_same, larch_store::proofs::Growth::grows_refl, crate::proofs::Roots::nothing_left, crate::proofs::Roots::application_tells))]
fn apply<'a>(
    alloc: Global,
    store: &mut Store,
    builder: &mut Builder,
    found: &Match<'a>,
    level: Level,
    means: &mut Means,
) -> Result<Level, RewriteRefusal>
    requires bound { IsFoundIn store.old found.now }
    requires encodings { AreOfStore store.old means.old.encodings }
    ensures level { IfOk result (λ l. (l.start ≡ level.start) × (l.begun ≡ level.begun)) }
    ensures term { IfOk result (λ l. term_of l.term
        ≡ instance_of (entries_of found.now.by) (right_of found.now.rule.now)) }
    ensures belongs { IfOk result (λ l. Belongs store.new l.term) }
    ensures spent { OnOk result (means.old.left ≡ means.new.left + 1) }
    ensures refused { IfErr result (λ e. (rs : List Sides) (t : Tree) → is_large t ≡ false
        → rewritten_once rs t ≡ Some (instance_of (entries_of found.now.by) (right_of found.now.rule.now))
        → TellsEvent (root_work rs t means.old.left) e) }
    ensures says { IfOk result (λ l. (s t : Tree) → Known builder.old t → RuleHolds builder.old found.now.rule.now
        → IsBy found.now.rule.now found.now.exchanged t (entries_of found.now.by)
        → AreEncodings builder.old means.old.encodings
        → Leads builder.old level.way s t → Leads builder.new l.way s (term_of l.term)) }
    ensures extends { (s t : Tree) → Known builder.old t → RuleHolds builder.old found.now.rule.now
        → IsBy found.now.rule.now found.now.exchanged t (entries_of found.now.by)
        → AreEncodings builder.old means.old.encodings
        → Leads builder.old level.way s t → Extends builder.old builder.new }
    ensures grows { Grows store.old store.new }
    ensures belong { AreOfStore store.new means.new.encodings }
    ensures encodings { AreEncodings builder.old means.old.encodings → AreEncodings builder.old means.new.encodings }
{
    if means.left == 0 {
        return Err(RewriteRefusal::Limit);
    }
    let Applied { term, line } = apply_match(alloc, store, builder, &mut means.encodings, found)?;
    let line = push_further(alloc, builder, level.way, line)?;
    means.left -= 1;
    Ok(Level {
        start: level.start,
        begun: level.begun,
        way: Some(line),
        term,
    })
}
