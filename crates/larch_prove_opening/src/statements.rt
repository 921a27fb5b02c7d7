ghost use Rattle.std.specs.Prelude.{◌≡◌, Ok, IfOk, IfErr, OnOk};
ghost use Rattle.larch_derive.specs.Predicates.{Extends};
ghost use Rattle.larch_prove_adding.specs.Equation.{IsSaid};
ghost use Rattle.larch_prove_adding.specs.KeptFacts.{AreSaid, facts_of};
ghost use Rattle.larch_prove_opening.specs.FirstFacts.{facts_with_each};
ghost use Rattle.larch_prove_opening.specs.Stating.{IsStated, TellsCode};
ghost use Rattle.larch_prove_adding.specs.RewriteRuleSet.{BelongsTo};
ghost use Rattle.larch_rewrite_meaning.specs.Sides.{sides_of};
ghost use Rattle.larch_store.specs.Stored.{Grows};
ghost use Rattle.larch_term.specs.declared.statement.Statement.TheVariants.{Equation};

use larch_base::{FactLetter, FactName, Memory};
use larch_derive::Builder;
use larch_order::Precedence;
use larch_prove_adding::from_derive_lines::push_axiom;
use larch_prove_adding::from_rewrite::RewriteRefusal;
use larch_prove_adding::{Facts, Manner, SaidEquation};
use larch_store::Store;
use larch_term::{Statement, Term, copy};
use std::alloc::Global;

// How the facts are added, and where memory comes from.
#[derive(Drop)]
pub(crate) struct Frame<'a> {
    pub(crate) alloc: Global,
    pub(crate) precedence: &'a Precedence,
    pub(crate) limit: u32,
}

// What a statement is as a fact, its number there, and its number among the builder's axioms.
#[derive(Clone, Copy)]
pub(crate) struct Source {
    pub(crate) letter: FactLetter,
    pub(crate) number: u64,
    pub(crate) at: u64,
}

// Adds a statement of the theory to the facts, where it is an equation.
#[tactic(auto, using(larch_derive::proofs::Growth::extends_same, larch_store::proofs::Growth::grows_refl, crate::proofs::Stating::number_told, crate::proofs::Steps::each_added, crate::proofs::Steps::each_refused))]
pub(crate) fn add_statement<'a>(
    frame: &Frame<'a>,
    facts: &mut Facts,
    store: &mut Store,
    builder: &mut Builder,
    source: Source,
    statement: &Statement,
) -> Result<(), RewriteRefusal>
    requires stated { IsStated builder.old source.at statement.now }
    requires said { AreSaid builder.old facts.old }
    requires kept { BelongsTo store.old facts.old.rules }
    ensures added { OnOk result (facts_with_each frame.now.precedence.now frame.now.limit source.letter
        source.number (sides_of statement.now) (facts_of facts.old) ≡ Ok (facts_of facts.new)) }
    ensures refused { IfErr result (TellsCode (facts_with_each frame.now.precedence.now frame.now.limit
        source.letter source.number (sides_of statement.now) (facts_of facts.old))) }
    ensures said { OnOk result (AreSaid builder.new facts.new) }
    ensures kept { OnOk result (BelongsTo store.new facts.new.rules) }
    ensures grows { Grows store.old store.new }
    ensures extends { Extends builder.old builder.new }
{
    let Statement::Equation(left, right) = statement else {
        return Ok(());
    };
    let Ok(number) = u32::try_from(source.number) else {
        return Err(RewriteRefusal::TooLarge);
    };
    let equation = state_equation(frame.alloc, builder, source.at, left, right)?;
    let manner = Manner {
        precedence: frame.precedence,
        name: FactName {
            letter: source.letter,
            number,
            part: 1,
        },
        budget: frame.limit,
    };
    facts.add(frame.alloc, store, builder, &manner, equation)
}

// An equation among the builder's axioms, with a line that says it.
#[tactic(auto, using(larch_derive::proofs::Growth::extends_same))]
fn state_equation(
    alloc: Global,
    builder: &mut Builder,
    at: u64,
    left: &Term,
    right: &Term,
) -> Result<SaidEquation, Memory>
    requires { IsStated builder.old at (Equation left.now right.now) }
    ensures left { IfOk result (λ e. e.left ≡ left.now) }
    ensures right { IfOk result (λ e. e.right ≡ right.now) }
    ensures says { IfOk result (IsSaid builder.new) }
    ensures extends { Extends builder.old builder.new }
{
    let line = push_axiom(builder, at)?;
    let left = copy(alloc, left)?;
    let right = copy(alloc, right)?;
    Ok(SaidEquation { left, right, line })
}
