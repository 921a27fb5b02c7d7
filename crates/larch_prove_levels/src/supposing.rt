ghost use Rattle.std.specs.Prelude.{◌≡◌, All, Ok, OnOk, IfErr, map};
ghost use Rattle.larch_prove_boxes.specs.DerivePredicates.{Extends};
ghost use Rattle.larch_prove_adding.specs.Equation.{IsSaid, sides_in};
ghost use Rattle.larch_prove_adding.specs.KeptFacts.{AreSaid, facts_of};
ghost use Rattle.larch_prove_levels.specs.Level.{IsReady};
ghost use Rattle.larch_prove_levels.specs.Supposing.{TellsCode, with_hypothesis, with_hypotheses};
ghost use Rattle.larch_prove_boxes.specs.ProveMeaningFacts.{rules_of, whole_name};
ghost use Rattle.larch_prove_boxes.specs.ProveMeaningLevels.{work_result};
ghost use Rattle.larch_prove_adding.specs.RewriteMeaningNormalForm.{normal};
ghost use Rattle.larch_prove_adding.specs.RewriteRuleSet.{BelongsTo};
ghost use Rattle.larch_store.specs.Numbered.{term_of};
ghost use Rattle.larch_store.specs.Stored.{Grows};

use crate::level::Level;
use larch_base::{FactLetter, FactName};
use larch_prove_adding::from_rewrite::RewriteRefusal;
use larch_prove_adding::{Facts, Manner, SaidEquation, normal_goal};
use larch_prove_boxes::from_derive::Builder;
use larch_prove_boxes::from_order::Precedence;
use larch_store::Store;
use std::alloc::Global;

/// By which precedence rules are oriented, and how many applications of rules an adding or a normal form may take.
#[derive(Drop)]
pub struct Around<'a> {
    pub alloc: Global,
    pub precedence: &'a Precedence,
    pub limit: u32,
}

impl<'a> Around<'a> {
    // How an equation is added that comes from there, with this number.
    pub(crate) fn manner(&self, letter: FactLetter, number: u32) -> Manner<'a>
        ensures precedence { result.precedence.now ≡ self.now.precedence.now }
        ensures name { result.name ≡ whole_name letter number }
        ensures budget { result.budget ≡ self.now.limit }
    {
        let name = FactName {
            letter,
            number,
            part: 1,
        };
        Manner {
            precedence: self.precedence,
            name,
            budget: self.limit,
        }
    }
}

/// The level's goal gets its normal form. A refusal comes exactly where it is the defined event, or where memory runs
/// out; the level may then not be used.
#[tactic(auto, using(larch_store::proofs::Growth::grows_refl))]
pub fn normalise_goal(
    alloc: Global,
    store: &mut Store,
    builder: &mut Builder,
    level: &mut Level,
    limit: u32,
) -> Result<(), RewriteRefusal>
    requires { IsReady store.old builder.old level.old }
    ensures normal { OnOk result
        (work_result (normal (rules_of (facts_of level.old.facts).rules) (term_of level.old.goal.term) limit)
        ≡ Ok (term_of level.new.goal.term)) }
    ensures refused { IfErr result (TellsCode
        (work_result (normal (rules_of (facts_of level.old.facts).rules) (term_of level.old.goal.term) limit))) }
    ensures ready { OnOk result (IsReady store.new builder.new level.new) }
    ensures facts { facts_of level.new.facts ≡ facts_of level.old.facts }
    ensures rest { level.new ≡ record level.old { facts = level.new.facts; goal = level.new.goal } }
    ensures grows { Grows store.old store.new }
    ensures extends { Extends builder.old builder.new }
{
    let Level { facts, goal, .. } = level;
    let normal = normal_goal(alloc, facts, store, builder, goal, limit)?;
    *goal = normal;
    Ok(())
}

/// A hypothesis more among facts, which takes the next number. A refusal comes exactly where it is the defined event,
/// or where memory runs out; the facts may then not be used.
#[tactic(auto, using(larch_store::proofs::Growth::grows_refl, larch_derive::proofs::Growth::extends_same))]
pub fn suppose<'a>(
    store: &mut Store,
    builder: &mut Builder,
    facts: &mut Facts,
    around: &Around<'a>,
    next: &mut u64,
    equation: SaidEquation,
) -> Result<(), RewriteRefusal>
    requires kept { BelongsTo store.old facts.old.rules }
    requires said { AreSaid builder.old facts.old }
    requires equation { IsSaid builder.old equation }
    ensures supposed { OnOk result (with_hypothesis around.now.precedence.now around.now.limit (sides_in equation)
        (record { facts = facts_of facts.old; next = next.old })
        ≡ Ok (record { facts = facts_of facts.new; next = next.new })) }
    ensures refused { IfErr result (TellsCode (with_hypothesis around.now.precedence.now around.now.limit
        (sides_in equation) (record { facts = facts_of facts.old; next = next.old }))) }
    ensures kept { OnOk result (BelongsTo store.new facts.new.rules) }
    ensures said { OnOk result (AreSaid builder.new facts.new) }
    ensures grows { Grows store.old store.new }
    ensures extends { Extends builder.old builder.new }
{
    let Ok(number) = u32::try_from(*next) else {
        return Err(RewriteRefusal::TooLarge);
    };
    *next += 1;
    let manner = around.manner(FactLetter::Hypothesis, number);
    facts.add(around.alloc, store, builder, &manner, equation)
}

/// Hypotheses more among facts, in order, each under the next number. A refusal comes exactly where it is the defined
/// event, or where memory runs out; the facts may then not be used.
#[tactic(auto, using(larch_store::proofs::Growth::grows_refl, larch_derive::proofs::Growth::extends_same))]
pub fn suppose_all<'a>(
    store: &mut Store,
    builder: &mut Builder,
    facts: &mut Facts,
    around: &Around<'a>,
    next: &mut u64,
    equations: Vec<SaidEquation>,
) -> Result<(), RewriteRefusal>
    requires kept { BelongsTo store.old facts.old.rules }
    requires said { AreSaid builder.old facts.old }
    requires equations { All (IsSaid builder.old) equations.items }
    ensures supposed { OnOk result (with_hypotheses around.now.precedence.now around.now.limit
        (map sides_in equations.items) (record { facts = facts_of facts.old; next = next.old })
        ≡ Ok (record { facts = facts_of facts.new; next = next.new })) }
    ensures refused { IfErr result (TellsCode (with_hypotheses around.now.precedence.now around.now.limit
        (map sides_in equations.items) (record { facts = facts_of facts.old; next = next.old }))) }
    ensures kept { OnOk result (BelongsTo store.new facts.new.rules) }
    ensures said { OnOk result (AreSaid builder.new facts.new) }
    ensures grows { Grows store.old store.new }
    ensures extends { Extends builder.old builder.new }
{
    for equation in equations {
        suppose(store, builder, facts, around, next, equation)?;
    }
    Ok(())
}
