ghost use Rattle.std.specs.Prelude.{◌≡◌, ◌⊎◌, ◌<◌, ◌≤◌, ℕ, true, false, IsTrue};
ghost use Rattle.std.specs.Prelude.{length, IfOk, IfErr, OnOk, OnErr, Some, List};
ghost use Rattle.std.specs.Prelude.{IfSome, find, option_map, slice_get};
ghost use Rattle.larch_derive.specs.Predicates.{Extends, HasEquation, Known};
ghost use Rattle.larch_derive.specs.declared.builder.Builder.{Builder as is_builder};
ghost use Rattle.larch_prove_adding.specs.Beside.{HasNoRoomFor, HasRoomFor, facts_without, with_new};
ghost use Rattle.larch_prove_adding.specs.Equation.{IsSaid, sides_in};
ghost use Rattle.larch_prove_adding.specs.KeptFacts.{AreNone, AreSaid, AreSame, fact_by};
ghost use Rattle.larch_prove_adding.specs.KeptFacts.{facts_of, lines_of, with_absurd};
ghost use Rattle.larch_prove_adding.specs.KeptFacts.{with_one};
ghost use Rattle.larch_prove_adding.specs.Turns.{MayPut};
ghost use Rattle.larch_prove_invariant.specs.Holding.{HasAbsurd, HasFacts};
ghost use Rattle.larch_prove_invariant.specs.ProveMeaningFacts.{is_full, rules_of};
ghost use Rattle.larch_prove_invariant.specs.ProveMeaningSteps.{has_name};
ghost use Rattle.larch_rewrite.specs.Refusal.{IsMade, TellsEvent};
ghost use Rattle.larch_rewrite.specs.RuleSet.{BelongsTo, sides_of_plain};
ghost use Rattle.larch_rewrite.specs.RuleSet.{IsSaid as IsRuleSaid};
ghost use Rattle.larch_rewrite_meaning.specs.NormalForm.{normal};
ghost use Rattle.larch_store.specs.Numbered.{Numbered, term_of};
ghost use Rattle.larch_store.specs.Stored.{Belongs, Grows, most_nodes};
ghost use Rattle.larch_term.specs.Tree.{nodes};

use crate::equation::SaidEquation;
use crate::named::{count_others, equation_of, rule_named};
use larch_base::limits::MAX_FACTS;
use larch_base::{FactName, Memory};
use larch_derive::Builder;
use larch_rewrite::{NamedRule, Normal, RewriteRefusal, Rules};
use larch_store::{Shared, Store};
use larch_term::Term;
use std::alloc::Global;
use std::marker::Model;

/// The facts of a level, in order, each with its name and the line that says it; and the line that says that true is
/// false, where they contradict each other.
#[derive(Drop)]
pub struct Facts {
    rules: Rules,
    count: u32,
    absurd: Option<u64>,
}

impl Model for Facts {
    ghost use Rattle.larch_prove_adding.specs.KeptFacts.{AreCounted, KeptFacts};
    ghost use Rattle.larch_prove_adding.specs.KeptFactsCode.{coded_facts};

    ghost Value = { KeptFacts };

    ghost coded = { coded_facts };

    ghost view = { λ facts. record { rules = facts.rules; absurd = facts.absurd } };

    ghost invariant = { λ facts. AreCounted facts.rules facts.count };
}

impl Facts {
    /// No facts.
    pub fn new(alloc: Global) -> Result<Facts, Memory>
        ensures none { IfOk result AreNone }
        ensures kept { IfOk result (λ facts. (s : List Numbered) → BelongsTo s facts.rules) }
        ensures said { IfOk result (λ facts. (b : is_builder) → AreSaid b facts) }
    {
        let rules = Rules::new(alloc)?;
        Ok(Facts {
            rules,
            count: 0,
            absurd: None,
        })
    }

    /// The same facts once more, in constant time; the two share what is there. No normal form is kept for them, so
    /// they are said wherever lines say the facts.
    pub fn copy(&self) -> Result<Facts, Memory>
        ensures same { IfOk result (λ facts. AreSame self.now facts) }
        ensures absurd { IfOk result (λ facts. facts.absurd ≡ self.now.absurd) }
        ensures kept { IfOk result (λ facts. (s : List Numbered) → BelongsTo s facts.rules) }
        ensures said { IfOk result (λ facts. (b : is_builder) → HasFacts b (facts_of self.now).rules (lines_of self.now)
            → (IsTrue (facts_of self.now).contradictory → HasAbsurd b self.now.absurd) → AreSaid b facts) }
    {
        let rules = self.rules.copy()?;
        Ok(Facts {
            rules,
            count: self.count,
            absurd: self.absurd,
        })
    }

    /// How many facts there are.
    #[tactic(auto, using(crate::proofs::Naming::counted))]
    pub fn len(&self) -> u32
        ensures { result ≡ length (facts_of self.now).rules }
    {
        self.count
    }

    /// The fact of a name, with the line that says it: the first one that has the name, if one has.
    pub fn find(&self, alloc: Global, name: &FactName) -> Result<Option<SaidEquation>, Memory>
        ensures found { IfOk result (λ found. find (has_name name.now) (facts_of self.now).rules
            ≡ option_map (λ e. record { name = name.now; sides = sides_in e }) found) }
        ensures said { IfOk result (λ found. IfSome found
            (λ e. (b : is_builder) → AreSaid b self.now → IsSaid b e)) }
    {
        let Some(rule) = rule_named(&self.rules, self.count, name) else {
            return Ok(None);
        };
        let equation = equation_of(alloc, rule)?;
        Ok(Some(equation))
    }

    /// The facts that have another name; the two share what is there. No normal form is kept for them, so they are said
    /// wherever lines say the facts.
    pub fn without(&self, name: &FactName) -> Result<Facts, Memory>
        ensures facts { IfOk result (λ others. facts_of others ≡ facts_without name.now (facts_of self.now)) }
        ensures absurd { IfOk result (λ others. others.absurd ≡ self.now.absurd) }
        ensures kept { IfOk result (λ others. (s : List Numbered) → BelongsTo s others.rules) }
        ensures said { IfOk result (λ others. (b : is_builder) → AreSaid b self.now → AreSaid b others) }
    {
        let mut rules = self.rules.copy()?;
        let _ = rules.remove(name)?;
        let count = count_others(&self.rules, self.count, name);
        Ok(Facts {
            rules,
            count,
            absurd: self.absurd,
        })
    }

    // What has come to facts that serve, at a place, comes behind these too, and where they contradict each other, so
    // do these. It is refused as too large where something comes and there are as many facts as a level may have.
    pub(crate) fn follow(&mut self, serving: &Facts, place: u32) -> Result<(), RewriteRefusal>
        ensures facts { OnOk result (facts_of self.new ≡ with_new (facts_of serving.now) place (facts_of self.old)) }
        ensures room { OnOk result
            (HasRoomFor (slice_get (facts_of serving.now).rules place) (facts_of self.old)) }
        ensures refused { IfErr result
            (HasNoRoomFor (slice_get (facts_of serving.now).rules place) (facts_of self.old)) }
        ensures said { OnOk result ((b : is_builder) → AreSaid b self.old → AreSaid b serving.now
            → AreSaid b self.new) }
        ensures kept { OnOk result ((s : List Numbered) → BelongsTo s self.old.rules → BelongsTo s self.new.rules) }
    {
        self.absurd = serving.absurd;
        let Some(rule) = serving.rules.get(place as usize) else {
            return Ok(());
        };
        self.share(rule)?;
        Ok(())
    }

    // Puts a fact of others behind these. It is refused as too large where there are as many as a level may have.
    fn share(&mut self, rule: &NamedRule) -> Result<(), RewriteRefusal>
        ensures facts { OnOk result
            (facts_of self.new ≡ with_one rule.now.name (sides_of_plain rule.now) (facts_of self.old)) }
        ensures room { OnOk result (is_full (facts_of self.old) ≡ false) }
        ensures refused { IfErr result (HasNoRoomFor (Some (fact_by rule.now)) (facts_of self.old)) }
        ensures said { OnOk result ((b : is_builder) → AreSaid b self.old → IsRuleSaid b rule.now
            → AreSaid b self.new) }
        ensures kept { OnOk result ((s : List Numbered) → BelongsTo s self.new.rules) }
    {
        if self.count >= MAX_FACTS {
            return Err(RewriteRefusal::TooLarge);
        }
        self.rules.share(rule)?;
        self.count += 1;
        Ok(())
    }

    /// The line that says that true is false, where the facts contradict each other.
    pub fn absurd(&self) -> Option<u64>
        ensures { result ≡ self.now.absurd }
    {
        self.absurd
    }

    /// A law, without work: where all lines say what they should, they say the facts, one by one, and that true is
    /// false where the facts contradict each other.
    pub fn are_said(&self)
        ensures facts { (b : is_builder) → AreSaid b self.now
            → HasFacts b (facts_of self.now).rules (lines_of self.now) }
        ensures absurd { (b : is_builder) → AreSaid b self.now → IsTrue (facts_of self.now).contradictory
            → HasAbsurd b self.now.absurd }
    {
        let _ = &self.rules;
    }

    // The normal form of a term by the facts, with its line.
    pub(crate) fn normalise(
        &mut self,
        store: &mut Store,
        builder: &mut Builder,
        term: &Shared,
        budget: u32,
    ) -> Result<Normal, RewriteRefusal>
        requires term { Belongs store.old term.now }
        requires known { Known builder.old (term_of term.now) }
        requires kept { BelongsTo store.old self.old.rules }
        requires said { AreSaid builder.old self.old }
        ensures made { IfOk result (λ n. IsMade budget n.cost (term_of n.form)
            (normal (rules_of (facts_of self.old).rules) (term_of term.now) budget)) }
        ensures refused { IfErr result (TellsEvent
            (normal (rules_of (facts_of self.old).rules) (term_of term.now) budget)) }
        ensures says { IfOk result (λ n. HasEquation builder.new n.line (term_of term.now) (term_of n.form)) }
        ensures belongs { IfOk result (λ n. Belongs store.new n.form) }
        ensures grows { Grows store.old store.new }
        ensures extends { Extends builder.old builder.new }
        ensures facts { AreSame self.old self.new }
        ensures kept { OnOk result (BelongsTo store.new self.new.rules) }
        ensures said { OnOk result (AreSaid builder.new self.new) }
        ensures err { OnErr result (self.new ≡ self.old) }
    {
        let normal = self.rules.normalise(store, builder, term, budget)?;
        Ok(normal)
    }

    // Puts a fact behind the others, with the line that says it. It is refused as too large where there are as many
    // facts as a level may have, or where a side is too large.
    #[tactic(auto, using(larch_store::proofs::Growth::grows_refl))]
    pub(crate) fn put(
        &mut self,
        store: &mut Store,
        name: FactName,
        left: &Term,
        right: &Term,
        line: u64,
    ) -> Result<(), RewriteRefusal>
        ensures facts { OnOk result (facts_of self.new
            ≡ with_one name (record { left = left.now; right = right.now }) (facts_of self.old)) }
        ensures room { OnOk result (is_full (facts_of self.old) ≡ false) }
        ensures small { OnOk result ((nodes left.now ≤ most_nodes) × (nodes right.now ≤ most_nodes)) }
        ensures refused { IfErr result (MayPut left.now right.now (facts_of self.old)) }
        ensures said { OnOk result ((b : is_builder) → BelongsTo store.old self.old.rules → AreSaid b self.old
            → HasEquation b line left.now right.now → AreSaid b self.new) }
        ensures kept { OnOk result (BelongsTo store.old self.old.rules → BelongsTo store.new self.new.rules) }
        ensures grows { Grows store.old store.new }
    {
        if self.count >= MAX_FACTS {
            return Err(RewriteRefusal::TooLarge);
        }
        self.rules.add_rule(store, name, left, right, line)?;
        self.count += 1;
        Ok(())
    }

    // From now on the facts contradict each other, as a line says.
    pub(crate) fn contradict(&mut self, line: u64)
        ensures { self.new ≡ with_absurd line self.old }
    {
        self.absurd = Some(line);
    }
}
