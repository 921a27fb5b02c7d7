ghost use Rattle.std.specs.Prelude.{◌≡◌, Ok, IfErr, IfOk, map};
ghost use Rattle.larch_derive.specs.Predicates.{Extends, HasEquation};
ghost use Rattle.larch_prove_opening.specs.ProveAddingEquation.{sides_in};
ghost use Rattle.larch_prove_opening.specs.ProveAddingKeptFacts.{AreSaid, facts_of};
ghost use Rattle.larch_prove_beginning.specs.Level.{IsForGoal, MayEnter, level_by, opened_in};
ghost use Rattle.larch_prove_settling.specs.ProveLevelsSupposing.{TellsCode};
ghost use Rattle.larch_prove_meaning.specs.Facts.{rules_of};
ghost use Rattle.larch_prove_meaning.specs.Levels.{work_result};
ghost use Rattle.larch_prove_opening.specs.RewriteRuleSet.{BelongsTo};
ghost use Rattle.larch_rewrite_meaning.specs.NormalForm.{normal};
ghost use Rattle.larch_store.specs.Numbered.{term_of};
ghost use Rattle.larch_store.specs.Stored.{Grows};

use crate::goal::FirstGoal;
use larch_base::Sequence;
use larch_derive::Builder;
use larch_prove_opening::from_prove_adding::{Facts, LevelGoal, SaidEquation};
use larch_prove_opening::from_rewrite::RewriteRefusal;
use larch_prove_settings::OrderedScope;
use larch_prove_settling::from_prove_boxes::Beginning;
use larch_prove_settling::from_prove_levels::{
    Around, Level, Purpose, normalise_goal, suppose_all,
};
use larch_store::Store;
use larch_term::Operators;

/// The lowest level, and the number of the next hypothesis.
#[derive(Drop)]
pub(crate) struct FirstLevel {
    pub(crate) level: Level,
    pub(crate) next: u64,
}

/// The lowest level for a goal, with the constants that are made for it, and the variables that are then in scope.
#[derive(Drop)]
pub(crate) struct GoalLevel {
    pub(crate) first: FirstLevel,
    pub(crate) constants: Operators,
    pub(crate) scope: OrderedScope,
}

// The lowest level for a goal, with the facts that were there outside of its box.
#[tactic(auto, using(larch_store::proofs::Growth::grows_refl, larch_derive::proofs::Growth::extends_same))]
pub(crate) fn level_of<'a>(
    store: &mut Store,
    builder: &mut Builder,
    facts: &Facts,
    goal: FirstGoal,
    around: &Around<'a>,
) -> Result<GoalLevel, RewriteRefusal>
    requires { MayEnter builder.old facts.now goal.beginning goal.hypotheses.items }
    ensures opened { IfOk result (λ l. level_by around.now.precedence.now around.now.limit (facts_of facts.now)
        (map sides_in goal.hypotheses.items) goal.beginning.first ≡ Ok (opened_in l.first.level l.first.next)) }
    ensures refused { IfErr result (TellsCode (level_by around.now.precedence.now around.now.limit (facts_of facts.now)
        (map sides_in goal.hypotheses.items) goal.beginning.first)) }
    ensures level { IfOk result (λ l. IsForGoal store.new builder.new goal.beginning l.first.level) }
    ensures constants { IfOk result (λ l. l.constants ≡ goal.constants) }
    ensures scope { IfOk result (λ l. l.scope ≡ goal.scope) }
    ensures grows { Grows store.old store.new }
    ensures extends { Extends builder.old builder.new }
{
    let FirstGoal {
        beginning,
        hypotheses,
        constants,
        scope,
    } = goal;
    let first = open_level(store, builder, facts, beginning, hypotheses, around)?;
    Ok(GoalLevel {
        first,
        constants,
        scope,
    })
}

// The lowest level, in its box: beside the facts its hypotheses are supposed, and its goal gets its normal form. A
// refusal comes exactly where it is the defined event, or where memory runs out.
#[tactic(auto, using(larch_store::proofs::Growth::grows_refl, larch_derive::proofs::Growth::extends_same))]
fn open_level<'a>(
    store: &mut Store,
    builder: &mut Builder,
    facts: &Facts,
    beginning: Beginning,
    hypotheses: Vec<SaidEquation>,
    around: &Around<'a>,
) -> Result<FirstLevel, RewriteRefusal>
    requires { MayEnter builder.old facts.now beginning hypotheses.items }
    ensures opened { IfOk result (λ f. level_by around.now.precedence.now around.now.limit (facts_of facts.now)
        (map sides_in hypotheses.items) beginning.first ≡ Ok (opened_in f.level f.next)) }
    ensures refused { IfErr result (TellsCode (level_by around.now.precedence.now around.now.limit (facts_of facts.now)
        (map sides_in hypotheses.items) beginning.first)) }
    ensures level { IfOk result (λ f. IsForGoal store.new builder.new beginning f.level) }
    ensures grows { Grows store.old store.new }
    ensures extends { Extends builder.old builder.new }
{
    let mut facts = facts.copy()?;
    let mut next = 1;
    suppose_all(store, builder, &mut facts, around, &mut next, hypotheses)?;
    let level = enter_level(store, builder, facts, beginning, around)?;
    Ok(FirstLevel { level, next })
}

// The lowest level with its facts; its goal gets its normal form.
#[tactic(auto, using(larch_store::proofs::Growth::grows_refl, larch_derive::proofs::Growth::extends_same))]
fn enter_level<'a>(
    store: &mut Store,
    builder: &mut Builder,
    facts: Facts,
    beginning: Beginning,
    around: &Around<'a>,
) -> Result<Level, RewriteRefusal>
    requires kept { BelongsTo store.old facts.rules }
    requires said { AreSaid builder.old facts }
    requires way { HasEquation builder.old beginning.way beginning.first beginning.first }
    ensures normal { IfOk result (λ level.
        work_result (normal (rules_of (facts_of facts).rules) beginning.first around.now.limit)
        ≡ Ok (term_of level.goal.term)) }
    ensures refused { IfErr result
        (TellsCode (work_result (normal (rules_of (facts_of facts).rules) beginning.first around.now.limit))) }
    ensures facts { IfOk result (λ level. facts_of level.facts ≡ facts_of facts) }
    ensures level { IfOk result (λ level. IsForGoal store.new builder.new beginning level) }
    ensures grows { Grows store.old store.new }
    ensures extends { Extends builder.old builder.new }
{
    let first = store.intern(&beginning.first)?;
    let term = first.copy()?;
    let Beginning {
        entrance,
        hypotheses: _hypotheses,
        first: _first,
        way,
    } = beginning;
    let mut level = Level {
        purpose: Purpose::OfDuty,
        facts,
        goal: LevelGoal { term, way },
        first,
        entrance,
        extras: Sequence::new(around.alloc),
        running: None,
    };
    normalise_goal(around.alloc, store, builder, &mut level, around.limit)?;
    Ok(level)
}
