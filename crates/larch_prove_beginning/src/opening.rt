ghost use Rattle.std.specs.Prelude.{◌≡◌, fold, IfErr, IfOk, List, None, Ok, OnOk};
ghost use Rattle.larch_order.specs.Precedence.{with_constant};
ghost use Rattle.larch_prove_beginning.specs.Beginning.{CanBegin, IsFirst, IsUnopened, duty_in};
ghost use Rattle.larch_prove_beginning.specs.Opening.{IsDraftOf, IsLevelOf, IsStarted, first_opened};
ghost use Rattle.larch_prove_settling.specs.ProveDraftDraft.{Leads, Stands};
ghost use Rattle.larch_prove_settling.specs.ProveDraftProving.{IsOver, IsProvable};
ghost use Rattle.larch_prove_opening.specs.ProveInvariantBook.{Kept};
ghost use Rattle.larch_prove_opening.specs.ProveInvariantHolding.{IsStart};
ghost use Rattle.larch_prove_settling.specs.ProveLevelsSupposing.{TellsCode};
ghost use Rattle.larch_prove_meaning.specs.Levels.{Proof, settle_goal};
ghost use Rattle.larch_prove_meaning.specs.Replays.{duty_opened};
ghost use Rattle.larch_prove_settling.specs.Rising.{IsSomeStanding};
ghost use Rattle.larch_store.specs.Stored.{Grows};

use crate::duty::{FirstDraft, Preamble, WholeDuty};
use crate::goal::make_goal;
use crate::level::{FirstLevel, GoalLevel, level_of};
use larch_base::Memory;
use larch_derive::Builder;
use larch_order::Precedence;
use larch_prove_opening::from_rewrite::RewriteRefusal;
use larch_prove_opening::{Opening, open_facts};
use larch_prove_settling::from_prove_draft::{Draft, Proving};
use larch_prove_settling::from_prove_levels::Around;
use larch_prove_settling::settle;
use larch_store::Store;
use larch_term::{Operator, Statement, Theory};
use std::alloc::Global;

/// Opens what is to be proved behind a preamble: the facts of the theory and of the lemmas, the goal, for a clause with
/// its new predicate or constants and its hypotheses, and what it leads to where the goal is proved at once. What is
/// new goes into the precedence. A refusal comes exactly where it is the defined one, or where memory runs out.
#[tactic(auto, using(larch_store::proofs::Growth::grows_refl))]
pub fn open_duty(
    alloc: Global,
    store: &mut Store,
    precedence: &mut Precedence,
    duty: &WholeDuty<'_>,
    preamble: &Preamble<'_>,
) -> Result<FirstDraft, RewriteRefusal>
    requires { CanBegin duty.now }
    ensures opened { IfOk result (λ first. (p : Proof) → IsUnopened duty.now preamble.now precedence.old p
        → (q : Proof) × ((duty_opened duty.now.statement.now p ≡ Ok q)
        × IsFirst duty.now store.new first precedence.new p q)) }
    ensures refused { IfErr result (λ refusal. (p : Proof) → IsUnopened duty.now preamble.now precedence.old p
        → TellsCode (duty_opened duty.now.statement.now p) refusal) }
    ensures grows { Grows store.old store.new }
{
    let mut first = start_draft(alloc, store, precedence, duty, preamble)?;
    let around = Around {
        alloc,
        precedence,
        limit: preamble.limit,
    };
    settle_first(store, duty.whole, duty.statement, around, &mut first.draft)?;
    Ok(first)
}

// What it leads to that the goal of a draft is proved.
fn settle_first<'a>(
    store: &mut Store,
    whole: &'a Theory,
    statement: &'a Statement,
    around: Around<'a>,
    draft: &mut Draft,
) -> Result<(), RewriteRefusal>
    requires provable { IsProvable whole.now statement.now }
    requires stands { IsSomeStanding whole.now statement.now around.precedence.now around.limit store.old draft.old }
    ensures settled { OnOk result ((p : Proof) (k : Kept) (ks : List Kept)
        → IsOver whole.now around.entry.precedence.now around.entry.limit p
        → Stands whole.now statement.now store.old draft.old p k ks
        → Leads whole.now statement.now store.new draft.new p None (settle_goal p)) }
    ensures refused { IfErr result (λ refusal. (p : Proof) (k : Kept) (ks : List Kept)
        → IsOver whole.now around.entry.precedence.now around.entry.limit p
        → Stands whole.now statement.now store.old draft.old p k ks → TellsCode (settle_goal p) refusal) }
    ensures grows { Grows store.old store.new }
{
    let alloc = around.alloc;
    let proving = Proving {
        theory: whole,
        statement,
        around,
    };
    settle(alloc, store, &proving, draft)
}

// The draft before it is looked at whether its goal is proved.
#[tactic(auto, using(larch_store::proofs::Growth::grows_refl))]
fn start_draft(
    alloc: Global,
    store: &mut Store,
    precedence: &mut Precedence,
    duty: &WholeDuty<'_>,
    preamble: &Preamble<'_>,
) -> Result<FirstDraft, RewriteRefusal>
    requires { CanBegin duty.now }
    ensures started { IfOk result (IsStarted duty.now preamble.now precedence.old precedence.new store.new) }
    ensures refused { IfErr result
        (TellsCode (first_opened (duty_in duty.now) preamble.now.scope.now precedence.old preamble.now.limit)) }
    ensures grows { Grows store.old store.new }
{
    let mut builder = Builder::new(alloc, duty.whole)?;
    let started = start_level(alloc, store, &mut builder, precedence, duty, preamble)?;
    let GoalLevel {
        first,
        constants,
        scope,
    } = started;
    let draft = draft_of(alloc, builder, first, preamble.checking);
    Ok(FirstDraft {
        draft,
        constants,
        scope,
    })
}

// The lowest level of a duty, whose facts are those with which it opens.
#[tactic(auto, using(larch_store::proofs::Growth::grows_refl))]
fn start_level(
    alloc: Global,
    store: &mut Store,
    builder: &mut Builder,
    precedence: &mut Precedence,
    duty: &WholeDuty<'_>,
    preamble: &Preamble<'_>,
) -> Result<GoalLevel, RewriteRefusal>
    requires duty { CanBegin duty.now }
    requires start { IsStart duty.now.whole.now builder.old }
    ensures started { IfOk result
        (IsLevelOf duty.now preamble.now precedence.old precedence.new store.new builder.new) }
    ensures refused { IfErr result
        (TellsCode (first_opened (duty_in duty.now) preamble.now.scope.now precedence.old preamble.now.limit)) }
    ensures grows { Grows store.old store.new }
{
    let opening = Opening {
        precedence,
        limit: preamble.limit,
    };
    let facts = open_facts(alloc, store, builder, &opening, duty.theory, duty.lemmas)?;
    let goal = make_goal(alloc, builder, duty.whole, duty.statement, preamble.scope)?;
    add_constants(precedence, goal.constants.as_slice())?;
    let around = Around {
        alloc,
        precedence,
        limit: preamble.limit,
    };
    level_of(store, builder, &facts, goal, &around)
}

// Puts new operators into the precedence, each below those before.
fn add_constants(precedence: &mut Precedence, constants: &[Operator]) -> Result<(), Memory>
    ensures { OnOk result (precedence.new ≡ fold with_constant precedence.old constants.now) }
{
    for constant in constants {
        precedence.add_constant(constant)?;
    }
    Ok(())
}

// The draft of a builder and the lowest level, of which nothing was looked at yet.
fn draft_of(alloc: Global, builder: Builder, first: FirstLevel, checking: bool) -> Draft
    ensures { IsDraftOf builder first checking result }
{
    let FirstLevel { level, next } = first;
    Draft {
        builder,
        current: level,
        below: Vec::new(alloc),
        is_proved: false,
        checking,
        waiting: Vec::new(alloc),
        next_hypothesis: next,
        next_derived: 1,
    }
}
