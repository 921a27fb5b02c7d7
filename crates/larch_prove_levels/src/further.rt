ghost use Rattle.std.specs.Prelude.{◌≡◌, ◌+◌, Ok, IfErr, IfOk, OnOk};
ghost use Rattle.larch_prove_boxes.specs.DerivePredicates.{Extends};
ghost use Rattle.larch_prove_adding.specs.Equation.{IsSaid, sides_in};
ghost use Rattle.larch_prove_adding.specs.KeptFacts.{facts_of};
ghost use Rattle.larch_prove_levels.specs.Derived.{derived_in};
ghost use Rattle.larch_prove_levels.specs.Level.{IsReady};
ghost use Rattle.larch_prove_levels.specs.Supposing.{TellsCode};
ghost use Rattle.larch_prove_boxes.specs.ProveMeaningPlans.{holds};
ghost use Rattle.larch_store.specs.Numbered.{term_of};
ghost use Rattle.larch_store.specs.Stored.{Grows};

use crate::level::Level;
use crate::supposing::{Around, normalise_goal};
use larch_base::{FactLetter, Memory};
use larch_prove_adding::SaidEquation;
use larch_prove_adding::from_rewrite::RewriteRefusal;
use larch_prove_boxes::from_derive::Builder;
use larch_store::{Shared, Store};
use larch_term::BuiltIn;
use std::alloc::Global;

/// An equation that a command derives is added to a level's facts, under the next number, and behind it the goal gets
/// its normal form. A refusal comes exactly where it is the defined event, or where memory runs out; the level may then
/// not be used.
#[tactic(auto, using(larch_store::proofs::Growth::grows_refl, larch_derive::proofs::Growth::extends_same))]
pub fn derive<'a>(
    store: &mut Store,
    builder: &mut Builder,
    level: &mut Level,
    around: &Around<'a>,
    next: &mut u64,
    equation: SaidEquation,
) -> Result<(), RewriteRefusal>
    requires ready { IsReady store.old builder.old level.old }
    requires equation { IsSaid builder.old equation }
    ensures derived { OnOk result (derived_in around.now.precedence.now around.now.limit (sides_in equation) next.old
        (record { facts = facts_of level.old.facts; goal = term_of level.old.goal.term })
        ≡ Ok (record { facts = facts_of level.new.facts; goal = term_of level.new.goal.term })) }
    ensures next { OnOk result (next.new ≡ next.old + 1) }
    ensures refused { IfErr result (TellsCode (derived_in around.now.precedence.now around.now.limit
        (sides_in equation) next.old
        (record { facts = facts_of level.old.facts; goal = term_of level.old.goal.term }))) }
    ensures ready { OnOk result (IsReady store.new builder.new level.new) }
    ensures rest { level.new ≡ record level.old { facts = level.new.facts; goal = level.new.goal } }
    ensures grows { Grows store.old store.new }
    ensures extends { Extends builder.old builder.new }
{
    let Ok(number) = u32::try_from(*next) else {
        return Err(RewriteRefusal::TooLarge);
    };
    *next += 1;
    let manner = around.manner(FactLetter::Derived, number);
    level
        .facts
        .add(around.alloc, store, builder, &manner, equation)?;
    normalise_goal(around.alloc, store, builder, level, around.limit)
}

/// The equation that a shared term is true, with a line for it. Whoever calls knows that the line says it.
pub fn said_true(
    alloc: Global,
    store: &Store,
    term: &Shared,
    line: u64,
) -> Result<SaidEquation, Memory>
    ensures sides { IfOk result (λ e. sides_in e ≡ holds (term_of term.now)) }
    ensures line { IfOk result (λ e. e.line ≡ line) }
{
    let left = store.to_term(term)?;
    let right = BuiltIn::True.constant(alloc)?;
    Ok(SaidEquation { left, right, line })
}
