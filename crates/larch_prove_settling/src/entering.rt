ghost use Rattle.std.specs.Prelude.{◌≡◌, All, IfErr, IfOk, Ok, length, map};
ghost use Rattle.larch_prove_draft.specs.ProveAddingKeptFacts.{facts_of};
ghost use Rattle.larch_prove_settling.specs.Entered.{IsEnteredFor, IsEquation, MayEnter, equation_of};
ghost use Rattle.larch_prove_draft.specs.ProveLevelsOpened.{opened_by};
ghost use Rattle.larch_prove_draft.specs.ProveLevelsSupposing.{TellsCode};
ghost use Rattle.larch_prove_draft.specs.ProveMeaningPlans.{Subgoal as PlainSubgoal};
ghost use Rattle.larch_prove_draft.specs.ProvePlansPlanning.{subgoal_of};
ghost use Rattle.larch_store.specs.Numbered.{term_of};
ghost use Rattle.larch_store.specs.Stored.{Grows};

use larch_base::{Memory, Sequence};
use larch_certificate::Numbers;
use larch_derive::Builder;
use larch_prove_draft::from_prove_adding::{LevelGoal, SaidEquation};
use larch_prove_draft::from_prove_boxes::{Entrance, enter_subgoal};
use larch_prove_draft::from_prove_levels::{Around, Level, Purpose, normalise_goal, suppose_all};
use larch_prove_draft::from_prove_plans::{Method, Subgoal};
use larch_prove_draft::from_rewrite::RewriteRefusal;
use larch_store::Store;
use larch_term::{Statement, Statements, copy};
use std::alloc::Global;

/// A subgoal that is to be opened, and the method that it is of.
#[derive(Drop)]
pub(crate) struct Entering<'a> {
    pub(crate) method: &'a Method,
    pub(crate) subgoal: &'a Subgoal,
}

// A level for a subgoal of the method that runs on a level: its box is opened, its hypotheses are supposed in order,
// and its goal gets its normal form. A refusal comes exactly where it is the defined event, or where memory runs out.
#[tactic(auto, using(larch_store::proofs::Growth::grows_refl))]
pub(crate) fn open_subgoal<'a>(
    store: &mut Store,
    builder: &mut Builder,
    parent: &Level,
    entering: &Entering<'_>,
    around: &Around<'a>,
    next: &mut u64,
) -> Result<Level, RewriteRefusal>
    requires { MayEnter builder.old parent.now entering.now.method.now entering.now.subgoal.now }
    ensures opened { IfOk result (λ level. (g : PlainSubgoal) → entering.now.subgoal.now ≡ subgoal_of g
        → opened_by around.now.precedence.now around.now.limit g
        (record { facts = facts_of parent.now.facts; next = next.old })
        ≡ Ok (record {
          supposed = record { facts = facts_of level.facts; next = next.new };
          goal = term_of level.goal.term;
        })) }
    ensures refused { IfErr result (λ refusal. (g : PlainSubgoal) → entering.now.subgoal.now ≡ subgoal_of g
        → TellsCode (opened_by around.now.precedence.now around.now.limit g
        (record { facts = facts_of parent.now.facts; next = next.old })) refusal) }
    ensures entered { IfOk result (λ level. IsEnteredFor builder.old builder.new store.new parent.now
        entering.now.method.now entering.now.subgoal.now level) }
    ensures grows { Grows store.old store.new }
{
    let alloc = around.alloc;
    let entrance = enter_subgoal(alloc, builder, entering.method, entering.subgoal)?;
    let Entrance {
        opened,
        hypotheses,
        way,
    } = entrance;
    let equations = said_hypotheses(alloc, &entering.subgoal.hypotheses, hypotheses.as_slice())?;
    let mut facts = parent.facts.copy()?;
    suppose_all(store, builder, &mut facts, around, next, equations)?;
    let first = store.intern(&entering.subgoal.goal)?;
    let term = first.copy()?;
    let mut level = Level {
        purpose: Purpose::OfSubgoal,
        facts,
        goal: LevelGoal { term, way },
        first,
        entrance: opened,
        extras: Sequence::new(alloc),
        running: None,
    };
    normalise_goal(alloc, store, builder, &mut level, around.limit)?;
    Ok(level)
}

// The hypotheses of a subgoal, which are equations, with the lines that say them.
fn said_hypotheses(
    alloc: Global,
    hypotheses: &Statements,
    lines: &[u64],
) -> Result<Vec<SaidEquation>, Memory>
    requires equations { All IsEquation hypotheses.now }
    requires lengths { length lines.now ≡ length hypotheses.now }
    ensures equations { IfOk result (λ es. map equation_of es.items ≡ hypotheses.now) }
    ensures lines { IfOk result (λ es. map (λ e. e.line) es.items ≡ lines.now) }
{
    let hypotheses = hypotheses.as_slice();
    let mut equations = Vec::with_capacity(alloc, lines.len())?;
    for i in 0..lines.len() {
        let equation = said_hypothesis(alloc, &hypotheses[i], lines[i])?;
        equations.push(equation)?;
    }
    Ok(equations)
}

// One equation with the line that says it.
fn said_hypothesis(alloc: Global, hypothesis: &Statement, line: u64) -> Result<SaidEquation, Memory>
    requires { IsEquation hypothesis.now }
    ensures equation { IfOk result (λ e. equation_of e ≡ hypothesis.now) }
    ensures line { IfOk result (λ e. e.line ≡ line) }
{
    match hypothesis {
        Statement::Equation(left, right) => {
            let left = copy(alloc, left)?;
            let right = copy(alloc, right)?;
            Ok(SaidEquation { left, right, line })
        }
        Statement::Generated(_, _) | Statement::Partitioned(_, _) => unreachable!(),
    }
}
