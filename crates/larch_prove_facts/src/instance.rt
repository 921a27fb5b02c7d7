ghost use Rattle.std.specs.Prelude.{◌≡◌, ◌+◌, ◌≤◌, ℕ, Ok, IfErr, IfOk, OnOk};
ghost use Rattle.larch_base.specs.declared.fact_name.FactLetter.TheVariants.{Derived};
ghost use Rattle.larch_derive.specs.Predicates.{Extends, Known};
ghost use Rattle.larch_prove_work.specs.ProveAddingBeside.{IsApart, facts_without, manner_beside};
ghost use Rattle.larch_prove_work.specs.ProveAddingKeptFacts.{AreSaid, facts_of};
ghost use Rattle.larch_prove_work.specs.ProveAddingTurns.{Tells};
ghost use Rattle.larch_prove_facts.specs.Instance.{IsFormed, IsUnformed, IsWithin, MayInstantiate, beside_in};
ghost use Rattle.larch_prove_facts.specs.Instance.{formed_of, instance_in};
ghost use Rattle.larch_prove_work.specs.ProveLevelsLevel.{IsReady};
ghost use Rattle.larch_prove_work.specs.ProveLevelsSupposing.{TellsCode};
ghost use Rattle.larch_prove_meaning.specs.Facts.{add, max_fact_number, rules_of, whole_name};
ghost use Rattle.larch_prove_meaning.specs.Levels.{work_result};
ghost use Rattle.larch_prove_work.specs.RewriteRuleSet.{BelongsTo};
ghost use Rattle.larch_rewrite_meaning.specs.NormalForm.{normal};
ghost use Rattle.larch_store.specs.Numbered.{term_of};
ghost use Rattle.larch_store.specs.Stored.{Grows};
ghost use Rattle.larch_term.specs.Substitution.{instance_of};
ghost use Rattle.larch_term.specs.Tree.{Tree};

use larch_base::{FactLetter, FactName, Memory};
use larch_complete_pairs::from_derive_lines::{push_inst, push_refl};
use larch_derive::Builder;
use larch_pairs::{PairRefusal, substitute_within};
use larch_prove_work::from_prove_adding::{
    Facts, Instance, LevelGoal, Manner, SaidEquation, normal_goal,
};
use larch_prove_work::from_prove_levels::{Around, Level, normalise_goal};
use larch_prove_work::from_rewrite::RewriteRefusal;
use larch_store::Store;
use larch_term::{Substitution, Term};
use std::alloc::Global;

// An instance that is asked for: of which fact, the fact's equation with its line, and what takes the places of
// variables.
#[derive(Drop)]
pub(crate) struct Asked {
    pub(crate) fact: FactName,
    pub(crate) equation: SaidEquation,
    pub(crate) entries: Substitution,
}

// The left side of an instance of a fact, whose right side is too large.
#[derive(Drop)]
pub(crate) struct LeftSide {
    left: Term,
    fact: FactName,
}

// An instance as it is formed: whole, or its left side alone, where the right one is too large.
#[derive(Drop)]
pub(crate) enum Formed {
    Whole(Instance),
    LeftAlone(LeftSide),
}

// Adds an instance to a level's facts, under the next number, while the facts of its fact's name serve as no rules; and
// behind it the goal gets its normal form. A refusal comes exactly where it is the defined event, or where memory runs
// out; the level may then not be used.
#[tactic(auto, using(larch_store::proofs::Growth::grows_refl, larch_derive::proofs::Growth::extends_same))]
pub(crate) fn add_instance<'a>(
    store: &mut Store,
    builder: &mut Builder,
    level: &mut Level,
    around: &Around<'a>,
    next: &mut u64,
    asked: &Asked,
) -> Result<(), RewriteRefusal>
    requires ready { IsReady store.old builder.old level.old }
    requires may { MayInstantiate builder.old next.old asked.now }
    ensures derived { OnOk result (beside_in asked.now.fact around.now.precedence.now around.now.limit
        (instance_in asked.now) next.old
        (record { facts = facts_of level.old.facts; goal = term_of level.old.goal.term })
        ≡ Ok (record { facts = facts_of level.new.facts; goal = term_of level.new.goal.term })) }
    ensures next { OnOk result (next.new ≡ next.old + 1) }
    ensures refused { IfErr result (TellsCode (beside_in asked.now.fact around.now.precedence.now around.now.limit
        (instance_in asked.now) next.old
        (record { facts = facts_of level.old.facts; goal = term_of level.old.goal.term }))) }
    ensures ready { OnOk result (IsReady store.new builder.new level.new) }
    ensures rest { level.new ≡ record level.old { facts = level.new.facts; goal = level.new.goal } }
    ensures grows { Grows store.old store.new }
    ensures extends { Extends builder.old builder.new }
{
    let Ok(number) = u32::try_from(*next) else {
        return Err(RewriteRefusal::TooLarge);
    };
    *next += 1;
    let manner = manner_for(around, number);
    add_asked(
        around.alloc,
        store,
        builder,
        &mut level.facts,
        &manner,
        asked,
    )?;
    normalise_goal(around.alloc, store, builder, level, around.limit)
}

// How an equation is added that a command derives, with this number.
fn manner_for<'a>(around: &Around<'a>, number: u32) -> Manner<'a>
    ensures precedence { result.precedence.now ≡ around.now.precedence.now }
    ensures name { result.name ≡ whole_name Derived number }
    ensures budget { result.budget ≡ around.now.limit }
    ensures small { number ≤ max_fact_number }
{
    let name = FactName {
        letter: FactLetter::Derived,
        number,
        part: 1,
    };
    Manner {
        precedence: around.precedence,
        name,
        budget: around.limit,
    }
}

// The same with the name that its rules get. The right side is formed only where the left one isn't too large, and
// where that is too large, the left one gets its normal form first.
#[tactic(auto, using(larch_store::proofs::Growth::grows_refl, larch_derive::proofs::Growth::extends_same))]
fn add_asked<'a>(
    alloc: Global,
    store: &mut Store,
    builder: &mut Builder,
    facts: &mut Facts,
    manner: &Manner<'a>,
    asked: &Asked,
) -> Result<(), RewriteRefusal>
    requires may { MayInstantiate builder.old manner.now.name.number asked.now }
    requires name { manner.now.name ≡ whole_name Derived manner.now.name.number }
    requires small { manner.now.name.number ≤ max_fact_number }
    requires said { AreSaid builder.old facts.old }
    requires kept { BelongsTo store.old facts.old.rules }
    ensures added { OnOk result (work_result (add (manner_beside asked.now.fact manner.now.precedence.now
        manner.now.name) (instance_in asked.now) (facts_of facts.old) manner.now.budget) ≡ Ok (facts_of facts.new)) }
    ensures refused { IfErr result (Tells (add (manner_beside asked.now.fact manner.now.precedence.now
        manner.now.name) (instance_in asked.now) (facts_of facts.old) manner.now.budget)) }
    ensures said { OnOk result (AreSaid builder.new facts.new) }
    ensures kept { OnOk result (BelongsTo store.new facts.new.rules) }
    ensures grows { Grows store.old store.new }
    ensures extends { Extends builder.old builder.new }
{
    let formed = form_instance(alloc, builder, asked)?;
    match formed {
        Formed::Whole(instance) => facts.add_beside(alloc, store, builder, manner, instance),
        Formed::LeftAlone(side) => {
            normalise_left(alloc, store, builder, facts, manner, &side)?;
            Err(RewriteRefusal::TooLarge)
        }
    }
}

// Forms an instance, with a line that says it. It is refused as too large where its left side is.
#[tactic(auto, using(larch_derive::proofs::Growth::extends_same))]
fn form_instance(
    alloc: Global,
    builder: &mut Builder,
    asked: &Asked,
) -> Result<Formed, RewriteRefusal>
    requires may { (n : ℕ) × MayInstantiate builder.old n asked.now }
    ensures formed { IfOk result (IsFormed builder.new (instance_in asked.now) asked.now.fact) }
    ensures refused { IfErr result (IsUnformed (instance_in asked.now)) }
    ensures extends { Extends builder.old builder.new }
{
    let line = push_inst(alloc, builder, asked.equation.line, &asked.entries)?;
    let Some(left) = instance_within(alloc, &asked.equation.left, &asked.entries)? else {
        return Err(RewriteRefusal::TooLarge);
    };
    let right = instance_within(alloc, &asked.equation.right, &asked.entries)?;
    Ok(join_sides(asked.fact, left, right, line))
}

// An instance of a term, where it isn't too large.
fn instance_within(
    alloc: Global,
    term: &Term,
    entries: &Substitution,
) -> Result<Option<Term>, Memory>
    ensures { IfOk result (IsWithin (instance_of entries.now term.now)) }
{
    match substitute_within(alloc, term, entries) {
        Ok(instance) => Ok(Some(instance)),
        Err(PairRefusal::TooLarge) => Ok(None),
        Err(PairRefusal::Memory) => Err(Memory),
    }
}

// An instance by its sides.
fn join_sides(fact: FactName, left: Term, right: Option<Term>, line: u64) -> Formed
    ensures { result ≡ formed_of fact left right line }
{
    match right {
        Some(right) => Formed::Whole(Instance {
            equation: SaidEquation { left, right, line },
            fact,
        }),
        None => Formed::LeftAlone(LeftSide { left, fact }),
    }
}

// The left side of an instance gets its normal form while the facts of its fact's name serve as no rules. A refusal
// comes exactly where it is the defined event, or where memory runs out.
#[tactic(auto, using(larch_store::proofs::Growth::grows_refl, larch_derive::proofs::Growth::extends_same))]
fn normalise_left<'a>(
    alloc: Global,
    store: &mut Store,
    builder: &mut Builder,
    facts: &Facts,
    manner: &Manner<'a>,
    side: &LeftSide,
) -> Result<(), RewriteRefusal>
    requires known { Known builder.old side.now.left }
    requires said { AreSaid builder.old facts.now }
    ensures normal { OnOk result ((found : Tree)
        × (work_result (normal (rules_of (facts_without side.now.fact (facts_of facts.now)).rules) side.now.left
        manner.now.budget) ≡ Ok found)) }
    ensures refused { IfErr result (Tells (normal (rules_of (facts_without side.now.fact (facts_of facts.now)).rules)
        side.now.left manner.now.budget)) }
    ensures grows { Grows store.old store.new }
    ensures extends { Extends builder.old builder.new }
{
    let mut others = facts.without(&side.fact)?;
    let term = store.intern(&side.left)?;
    let way = push_refl(builder, &side.left)?;
    let goal = LevelGoal { term, way };
    normal_goal(alloc, &mut others, store, builder, &goal, manner.budget)?;
    Ok(())
}
