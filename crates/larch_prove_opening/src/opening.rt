ghost use Rattle.std.specs.Prelude.{◌≡◌, ◌+◌, ◌<◌, ◌^◌, Ok, IfOk, IfErr, OnOk, length};
ghost use Rattle.larch_calculus.specs.Theories.{with_statements};
ghost use Rattle.larch_derive.specs.Builder.{theory_in};
ghost use Rattle.larch_derive.specs.Predicates.{Extends, HasNoBadLine};
ghost use Rattle.larch_prove_adding.specs.KeptFacts.{AreSaid, facts_of};
ghost use Rattle.larch_prove_adding.specs.ProveMeaningFacts.{no_facts};
ghost use Rattle.larch_prove_adding.specs.ProveMeaningWellSorted.{AreLemmasOver};
ghost use Rattle.larch_prove_opening.specs.FirstFacts.{facts_with_axioms, facts_with_lemmas, first_facts};
ghost use Rattle.larch_prove_opening.specs.Stating.{AreStated, TellsCode, duties_of, what_state};
ghost use Rattle.larch_prove_adding.specs.RewriteRuleSet.{BelongsTo};
ghost use Rattle.larch_store.specs.Stored.{Grows};
ghost use Rattle.larch_term.specs.Statement.{IsWellSortedTheory};

use crate::statements::{Frame, Source, add_statement};
use larch_base::FactLetter;
use larch_derive::Builder;
use larch_order::Precedence;
use larch_prove_adding::Facts;
use larch_prove_adding::from_rewrite::RewriteRefusal;
use larch_store::Store;
use larch_term::{Statement, Theory};
use std::alloc::Global;

/// How a proof opens: by which precedence the rules of its facts are oriented, and with which budget each equation is
/// added.
#[derive(Drop)]
pub struct Opening<'a> {
    pub precedence: &'a Precedence,
    pub limit: u32,
}

/// An earlier duty that was proved: its number, and what it states.
#[derive(Drop)]
pub struct Lemma {
    pub number: u32,
    pub statement: Statement,
}

/// The facts with which a proof opens: the theory's equations, and then those among what lemmas state, in order. The
/// builder is one of the theory with what the lemmas state behind its own statements; each fact has a line there.
/// `Limit` and `TooLarge` come exactly where they are the first event; the builder may then have further lines, none of
/// them bad.
#[tactic(auto, using(larch_derive::proofs::Growth::extends_same, larch_store::proofs::Growth::grows_refl, crate::proofs::Nothing::none_are, crate::proofs::Steps::both_added, crate::proofs::Steps::first_refused, crate::proofs::Steps::second_refused))]
pub fn open_facts<'a>(
    alloc: Global,
    store: &mut Store,
    builder: &mut Builder,
    opening: &Opening<'a>,
    theory: &Theory,
    lemmas: &[Lemma],
) -> Result<Facts, RewriteRefusal>
    requires theory { theory_in builder.old ≡ with_statements theory.now (what_state (duties_of lemmas.now)) }
    requires stands { HasNoBadLine builder.old }
    requires sorted { IsWellSortedTheory theory.now }
    requires lemmas { AreLemmasOver theory.now.operators (duties_of lemmas.now) }
    ensures added { IfOk result (λ facts. first_facts opening.now.precedence.now opening.now.limit
        theory.now.statements (duties_of lemmas.now) no_facts ≡ Ok (facts_of facts)) }
    ensures refused { IfErr result (TellsCode (first_facts opening.now.precedence.now opening.now.limit
        theory.now.statements (duties_of lemmas.now) no_facts)) }
    ensures said { IfOk result (AreSaid builder.new) }
    ensures kept { IfOk result (λ facts. BelongsTo store.new facts.rules) }
    ensures grows { Grows store.old store.new }
    ensures extends { Extends builder.old builder.new }
{
    let frame = Frame {
        alloc,
        precedence: opening.precedence,
        limit: opening.limit,
    };
    let statements = theory.statements.as_slice();
    let mut facts = Facts::new(alloc)?;
    add_axioms(&frame, &mut facts, store, builder, statements)?;
    let first = statements.len() as u64 + 1;
    add_lemmas(&frame, &mut facts, store, builder, first, lemmas)?;
    Ok(facts)
}

// Adds the equations of a theory, with whose statements the axioms begin.
#[tactic(auto, using(larch_derive::proofs::Growth::extends_same, larch_store::proofs::Growth::grows_refl))]
fn add_axioms<'a>(
    frame: &Frame<'a>,
    facts: &mut Facts,
    store: &mut Store,
    builder: &mut Builder,
    statements: &[Statement],
) -> Result<(), RewriteRefusal>
    requires stated { AreStated builder.old 1 statements.now }
    requires said { AreSaid builder.old facts.old }
    requires kept { BelongsTo store.old facts.old.rules }
    ensures added { OnOk result (facts_with_axioms frame.now.precedence.now frame.now.limit 1 statements.now
        (facts_of facts.old) ≡ Ok (facts_of facts.new)) }
    ensures refused { IfErr result (TellsCode (facts_with_axioms frame.now.precedence.now frame.now.limit 1
        statements.now (facts_of facts.old))) }
    ensures said { OnOk result (AreSaid builder.new facts.new) }
    ensures kept { OnOk result (BelongsTo store.new facts.new.rules) }
    ensures grows { Grows store.old store.new }
    ensures extends { Extends builder.old builder.new }
{
    for (index, statement) in statements.iter().enumerate() {
        let number = index as u64 + 1;
        let source = Source {
            letter: FactLetter::Axiom,
            number,
            at: number,
        };
        add_statement(frame, facts, store, builder, source, statement)?;
    }
    Ok(())
}

// Adds the equations among what lemmas state, the first of which is the axiom with a number.
#[tactic(auto, using(larch_derive::proofs::Growth::extends_same, larch_store::proofs::Growth::grows_refl))]
fn add_lemmas<'a>(
    frame: &Frame<'a>,
    facts: &mut Facts,
    store: &mut Store,
    builder: &mut Builder,
    first: u64,
    lemmas: &[Lemma],
) -> Result<(), RewriteRefusal>
    requires small { first + length lemmas.now < 2 ^ 64 }
    requires stated { AreStated builder.old first (what_state (duties_of lemmas.now)) }
    requires said { AreSaid builder.old facts.old }
    requires kept { BelongsTo store.old facts.old.rules }
    ensures added { OnOk result (facts_with_lemmas frame.now.precedence.now frame.now.limit
        (duties_of lemmas.now) (facts_of facts.old) ≡ Ok (facts_of facts.new)) }
    ensures refused { IfErr result (TellsCode (facts_with_lemmas frame.now.precedence.now frame.now.limit
        (duties_of lemmas.now) (facts_of facts.old))) }
    ensures said { OnOk result (AreSaid builder.new facts.new) }
    ensures kept { OnOk result (BelongsTo store.new facts.new.rules) }
    ensures grows { Grows store.old store.new }
    ensures extends { Extends builder.old builder.new }
{
    for (index, lemma) in lemmas.iter().enumerate() {
        let source = Source {
            letter: FactLetter::Lemma,
            number: u64::from(lemma.number),
            at: first + index as u64,
        };
        add_statement(frame, facts, store, builder, source, &lemma.statement)?;
    }
    Ok(())
}
