ghost use Rattle.std.specs.Prelude.{◌≡◌, ◌≤◌, IfOk, IfErr, OnOk, OnErr, Ok};
ghost use Rattle.larch_derive.specs.Predicates.{Extends, HasEquation, Known};
ghost use Rattle.larch_prove_adding.specs.Equation.{IsSaid, IsSmall, sides_in};
ghost use Rattle.larch_prove_adding.specs.KeptFacts.{AreSaid, AreSame, facts_of};
ghost use Rattle.larch_prove_adding.specs.Turns.{Tells};
ghost use Rattle.larch_prove_invariant.specs.ProveMeaningFacts.{normal_sides as both_normal, rules_of};
ghost use Rattle.larch_prove_invariant.specs.ProveMeaningLevels.{work_result};
ghost use Rattle.larch_rewrite.specs.Refusal.{IsMade, TellsEvent};
ghost use Rattle.larch_rewrite.specs.RuleSet.{BelongsTo};
ghost use Rattle.larch_rewrite_meaning.specs.NormalForm.{normal};
ghost use Rattle.larch_rewrite_meaning.specs.Work.{Made};
ghost use Rattle.larch_store.specs.Numbered.{term_of};
ghost use Rattle.larch_store.specs.Stored.{Belongs, Grows};
ghost use Rattle.larch_term.specs.Tree.{Tree};

use crate::equation::{SaidEquation, push_between};
use crate::facts::Facts;
use larch_base::Memory;
use larch_derive::Builder;
use larch_rewrite::from_derive_lines::push_trans;
use larch_rewrite::{Normal, RewriteRefusal};
use larch_store::{Shared, Store};
use larch_term::Term;
use std::alloc::Global;

/// A level's goal, and the line that says that the level's first goal equals it.
#[derive(Drop)]
pub struct LevelGoal {
    pub term: Shared,
    pub way: u64,
}

/// The goal of a level in its normal form by the level's facts. After a refusal the facts are as before; the builder
/// may have further lines, none of them bad.
#[tactic(auto, using(larch_derive::proofs::Growth::extends_same))]
pub fn normal_goal(
    alloc: Global,
    facts: &mut Facts,
    store: &mut Store,
    builder: &mut Builder,
    goal: &LevelGoal,
    budget: u32,
) -> Result<LevelGoal, RewriteRefusal>
    requires goal { Belongs store.old goal.now.term }
    requires known { Known builder.old (term_of goal.now.term) }
    requires kept { BelongsTo store.old facts.old.rules }
    requires said { AreSaid builder.old facts.old }
    ensures made { IfOk result (λ n.
        work_result (normal (rules_of (facts_of facts.old).rules) (term_of goal.now.term) budget)
        ≡ Ok (term_of n.term)) }
    ensures refused { IfErr result
        (Tells (normal (rules_of (facts_of facts.old).rules) (term_of goal.now.term) budget)) }
    ensures says { IfOk result (λ n. (first : Tree) → HasEquation builder.old goal.now.way first (term_of goal.now.term)
        → HasEquation builder.new n.way first (term_of n.term)) }
    ensures belongs { IfOk result (λ n. Belongs store.new n.term) }
    ensures grows { Grows store.old store.new }
    ensures extends { (first : Tree) → HasEquation builder.old goal.now.way first (term_of goal.now.term)
        → Extends builder.old builder.new }
    ensures facts { AreSame facts.old facts.new }
    ensures kept { OnOk result (BelongsTo store.new facts.new.rules) }
    ensures said { OnOk result ((first : Tree) → HasEquation builder.old goal.now.way first (term_of goal.now.term)
        → AreSaid builder.new facts.new) }
{
    let normal = facts.normalise(store, builder, &goal.term, budget)?;
    let way = push_trans(alloc, builder, goal.way, normal.line)?;
    Ok(LevelGoal {
        term: normal.form,
        way,
    })
}

// The normal form of a term, which is formed for it.
fn normal_form(
    facts: &mut Facts,
    store: &mut Store,
    builder: &mut Builder,
    term: &Term,
    budget: u32,
) -> Result<Normal, RewriteRefusal>
    requires known { Known builder.old term.now }
    requires kept { BelongsTo store.old facts.old.rules }
    requires said { AreSaid builder.old facts.old }
    ensures made { IfOk result (λ n. IsMade budget n.cost (term_of n.form)
        (normal (rules_of (facts_of facts.old).rules) term.now budget)) }
    ensures refused { IfErr result (TellsEvent (normal (rules_of (facts_of facts.old).rules) term.now budget)) }
    ensures says { IfOk result (λ n. HasEquation builder.new n.line term.now (term_of n.form)) }
    ensures belongs { IfOk result (λ n. Belongs store.new n.form) }
    ensures grows { Grows store.old store.new }
    ensures extends { Extends builder.old builder.new }
    ensures facts { AreSame facts.old facts.new }
    ensures kept { OnOk result (BelongsTo store.new facts.new.rules) }
    ensures said { OnOk result (AreSaid builder.new facts.new) }
{
    let start = store.intern(term)?;
    let normal = facts.normalise(store, builder, &start, budget)?;
    Ok(normal)
}

// An equation with both sides in normal form, and what is left of the budget.
#[derive(Drop)]
pub(crate) struct NormalSides {
    pub(crate) equation: SaidEquation,
    pub(crate) left: u32,
}

// The equation with both sides in normal form. The left one is formed and normalised before the right one is formed.
pub(crate) fn normal_sides(
    alloc: Global,
    facts: &mut Facts,
    store: &mut Store,
    builder: &mut Builder,
    equation: &SaidEquation,
    budget: u32,
) -> Result<NormalSides, RewriteRefusal>
    requires equation { IsSaid builder.old equation.now }
    requires kept { BelongsTo store.old facts.old.rules }
    requires said { AreSaid builder.old facts.old }
    ensures made { IfOk result (λ n. both_normal (rules_of (facts_of facts.old).rules) (sides_in equation.now) budget
        ≡ Made (sides_in n.equation) n.left) }
    ensures refused { IfErr result
        (Tells (both_normal (rules_of (facts_of facts.old).rules) (sides_in equation.now) budget)) }
    ensures small { IfOk result (λ n. IsSmall n.equation) }
    ensures says { IfOk result (λ n. IsSaid builder.new n.equation) }
    ensures grows { Grows store.old store.new }
    ensures extends { Extends builder.old builder.new }
    ensures facts { AreSame facts.old facts.new }
    ensures kept { OnOk result (BelongsTo store.new facts.new.rules) }
    ensures said { OnOk result (AreSaid builder.new facts.new) }
{
    let left = normal_form(facts, store, builder, &equation.left, budget)?;
    let further = budget.saturating_sub(left.cost);
    let right = normal_form(facts, store, builder, &equation.right, further)?;
    let equation = between(alloc, store, builder, equation.line, &left, &right)?;
    Ok(NormalSides {
        equation,
        left: further.saturating_sub(right.cost),
    })
}

// The equation of two normal forms, from a line that says that of the terms whose forms they are.
#[tactic(auto, using(larch_derive::proofs::Growth::extends_same))]
fn between(
    alloc: Global,
    store: &Store,
    builder: &mut Builder,
    line: u64,
    left: &Normal,
    right: &Normal,
) -> Result<SaidEquation, Memory>
    requires left { Belongs store.now left.now.form }
    requires right { Belongs store.now right.now.form }
    ensures left { IfOk result (λ e. e.left ≡ term_of left.now.form) }
    ensures right { IfOk result (λ e. e.right ≡ term_of right.now.form) }
    ensures small { IfOk result IsSmall }
    ensures says { IfOk result (λ e. (l r : Tree) → HasEquation builder.old left.now.line l (term_of left.now.form)
        → HasEquation builder.old line l r → HasEquation builder.old right.now.line r (term_of right.now.form)
        → IsSaid builder.new e) }
    ensures extends { (l r : Tree) → HasEquation builder.old left.now.line l (term_of left.now.form)
        → HasEquation builder.old line l r → HasEquation builder.old right.now.line r (term_of right.now.form)
        → Extends builder.old builder.new }
{
    store.sizes_are_told();
    let line = push_between(alloc, builder, left.line, line, right.line)?;
    let left = store.to_term(&left.form)?;
    let right = store.to_term(&right.form)?;
    Ok(SaidEquation { left, right, line })
}
