ghost use Rattle.std.specs.Prelude.{◌≡◌, ◌≤◌, ◌++◌, ◌∷◌, [], false, List, option_copied, slice_get, IfOk, IfErr};
ghost use Rattle.std.specs.Prelude.{OnOk, OnErr};
ghost use Rattle.std.specs.List.{list_any};
ghost use Rattle.larch_derive.specs.Predicates.{Extends, HasEquation, Known};
ghost use Rattle.larch_derive.specs.declared.builder.Builder.{Builder as is_builder};
ghost use Rattle.larch_rewrite_meaning.specs.NormalForm.{normal};
ghost use Rattle.larch_rewrite.specs.Refusal.{IsMade, MayRefuse, TellsEvent};
ghost use Rattle.larch_rewrite.specs.RuleSet.{AreSaid, BelongsTo, IsSaid, Serves, has_name, rule_by, sides_in, without};
ghost use Rattle.larch_store.specs.Numbered.{Numbered, term_of};
ghost use Rattle.larch_store.specs.Stored.{Belongs, Grows, most_nodes};
ghost use Rattle.larch_term.specs.Tree.{nodes};

use crate::kept::Kept;
use crate::layered_rules::LayeredRules;
use crate::machine::{Normal, run};
use crate::named_rule::NamedRule;
use crate::refusal::RewriteRefusal;
use larch_base::{FactName, Memory};
use larch_derive::Builder;
use larch_store::{Shared, Store, StoreRefusal};
use larch_term::Term;
use std::alloc::Global;
use std::marker::Model;

/// Rules in the order in which they are tried, each with its name and its line, and normal forms that are kept.
/// Whoever normalises shows that they belong to the store; where they serve with a store and a builder, they do so
/// behind each call, and when the two have grown.
#[derive(Drop)]
pub struct Rules {
    rules: LayeredRules,
    kept: Kept,
}

impl Model for Rules {
    ghost use Rattle.std.specs.Prelude.{All};
    ghost use Rattle.larch_rewrite.specs.Kept.{IsForm};
    ghost use Rattle.larch_rewrite.specs.RuleSet.{RuleSet, sides_in};
    ghost use Rattle.larch_rewrite.specs.RuleSetCode.{coded_set};

    ghost Value = { RuleSet };

    ghost coded = { coded_set };

    ghost view = { λ r. record { rules = r.rules; kept = r.kept } };

    ghost invariant = { λ r. All (IsForm (sides_in r.rules)) r.kept };
}

impl Rules {
    /// No rules. They serve with all stores and builders.
    #[tactic(auto, using(crate::proofs::RuleSets::serves_empty, crate::proofs::RuleSets::belongs_alone, crate::proofs::RuleSets::none_are_forms))]
    pub fn new(alloc: Global) -> Result<Rules, Memory>
        ensures rules { IfOk result (λ made. made.rules ≡ []) }
        ensures belongs { IfOk result (λ made. (s : List Numbered) → BelongsTo s made) }
        ensures serves { IfOk result (λ made. (s : List Numbered) (b : is_builder) → Serves s b made) }
    {
        let rules = LayeredRules::new(alloc)?;
        let kept = Kept::new(alloc)?;
        Ok(Rules { rules, kept })
    }

    /// The same rules once more. The two share what is there: of n rules it takes as many steps as n has digits, and no
    /// memory for a rule. The built-in rows that one of the two makes the other has too. No normal form is kept for
    /// them, so they serve wherever their lines say them.
    #[tactic(auto, using(crate::proofs::RuleSets::belongs_alone, crate::proofs::RuleSets::none_are_forms))]
    pub fn copy(&self) -> Result<Rules, Memory>
        ensures rules { IfOk result (λ copied. copied.rules ≡ self.now.rules) }
        ensures belongs { IfOk result (λ copied. (s : List Numbered) → BelongsTo s copied) }
        ensures serves { IfOk result (λ copied. (s : List Numbered) (b : is_builder) → AreSaid b self.now.rules
            → Serves s b copied) }
    {
        let rules = self.rules.copy()?;
        let kept = self.kept.without_forms()?;
        Ok(Rules { rules, kept })
    }

    /// The rule at a place, counted from 0, if there is one. Of n rules it takes as many steps as n has digits.
    pub fn get(&self, index: usize) -> Option<&NamedRule>
        ensures { option_copied result ≡ slice_get self.now.rules index }
    {
        self.rules.get(index)
    }

    /// Puts a rule behind the others, with the line that says it; what was kept is forgotten. It is refused as too
    /// large exactly if one of its sides has more than 5,000 nodes, and a refused rule changes nothing.
    #[tactic(auto, using(larch_store::proofs::Growth::grows_trans, larch_store::proofs::Growth::grows_refl, crate::proofs::RuleSets::serves_with, crate::proofs::RuleSets::belongs_alone))]
    pub fn add_rule(
        &mut self,
        store: &mut Store,
        name: FactName,
        left: &Term,
        right: &Term,
        line: u64,
    ) -> Result<(), StoreRefusal>
        ensures ok { OnOk result (self.new.rules ≡ self.old.rules ++ rule_by name left.now right.now line ∷ []) }
        ensures small { OnOk result ((nodes left.now ≤ most_nodes) × (nodes right.now ≤ most_nodes)) }
        ensures refused { IfErr result (MayRefuse left.now right.now) }
        ensures err { OnErr result (self.new ≡ self.old) }
        ensures grows { Grows store.old store.new }
        ensures belongs { BelongsTo store.old self.old → BelongsTo store.new self.new }
        ensures serves { (b : is_builder) → Serves store.old b self.old → HasEquation b line left.now right.now
            → Serves store.new b self.new }
    {
        let alloc = self.kept.allocator();
        let _ = store.intern(left)?;
        let _ = store.intern(right)?;
        let rule = NamedRule::new(alloc, name, left, right, line)?;
        self.put(rule)?;
        Ok(())
    }

    /// Puts a rule of others behind these; both share it. Nothing is kept then, so they serve wherever their lines say
    /// them. Where memory runs out nothing changes.
    #[tactic(auto, using(crate::proofs::RuleSets::serves_shared, crate::proofs::RuleSets::belongs_alone))]
    pub fn share(&mut self, rule: &NamedRule) -> Result<(), Memory>
        ensures rules { OnOk result (self.new.rules ≡ self.old.rules ++ rule.now ∷ []) }
        ensures err { OnErr result (self.new ≡ self.old) }
        ensures belongs { OnOk result ((s : List Numbered) → BelongsTo s self.new) }
        ensures serves { OnOk result ((s : List Numbered) (b : is_builder) → AreSaid b self.old.rules
            → IsSaid b rule.now → Serves s b self.new) }
    {
        let rule = rule.copy()?;
        self.put(rule)?;
        Ok(())
    }

    // Puts a rule behind the others, and forgets what was kept. Where memory runs out nothing changes.
    #[tactic(auto, using(crate::proofs::RuleSets::none_are_forms, crate::proofs::RuleSets::none_kept))]
    fn put(&mut self, rule: NamedRule) -> Result<(), Memory>
        ensures rules { OnOk result (self.new.rules ≡ self.old.rules ++ rule ∷ []) }
        ensures kept { OnOk result (self.new.kept ≡ []) }
        ensures err { OnErr result (self.new ≡ self.old) }
    {
        self.rules.push(rule)?;
        self.kept.cut(0);
        Ok(())
    }

    /// Takes out all rules of a name, and forgets what was kept. `false` exactly where no rule has the name; then
    /// nothing changes.
    #[tactic(auto, using(crate::proofs::RuleSets::belongs_alone, crate::proofs::RuleSets::none_are_forms, crate::proofs::RuleSets::none_kept, crate::proofs::PlainRules::all_are_others))]
    pub fn remove(&mut self, name: &FactName) -> Result<bool, Memory>
        ensures removed { IfOk result (λ was. was ≡ list_any (has_name name.now) self.old.rules) }
        ensures rules { OnOk result (self.new.rules ≡ without name.now self.old.rules) }
        ensures same { IfOk result (λ was. was ≡ false → self.new ≡ self.old) }
        ensures err { OnErr result (self.new ≡ self.old) }
        ensures belongs { (s : List Numbered) → BelongsTo s self.old → BelongsTo s self.new }
        ensures serves { (s : List Numbered) (b : is_builder) → Serves s b self.old → Serves s b self.new }
    {
        if !self.rules.has_name(name) {
            return Ok(false);
        }
        self.rules = self.rules.without(name)?;
        self.kept.cut(0);
        Ok(true)
    }

    /// The normal form of a term under a budget, with what it costs, and a line that says that the term equals it. It
    /// is leftmost innermost: the arguments from left to right, and then the first rule that applies at the root.
    /// After a refusal the rules are as before; the builder may have further lines, none of them bad.
    #[tactic(auto, using(crate::proofs::RuleSets::front_cut))]
    pub fn normalise(
        &mut self,
        store: &mut Store,
        builder: &mut Builder,
        term: &Shared,
        budget: u32,
    ) -> Result<Normal, RewriteRefusal>
        requires term { Belongs store.old term.now }
        requires kept { BelongsTo store.old self.old }
        ensures made { IfOk result (λ n. IsMade budget n.cost (term_of n.form)
            (normal (sides_in self.old.rules) (term_of term.now) budget)) }
        ensures refused { IfErr result (TellsEvent (normal (sides_in self.old.rules) (term_of term.now) budget)) }
        ensures belongs { IfOk result (λ n. Belongs store.new n.form) }
        ensures grows { Grows store.old store.new }
        ensures says { IfOk result (λ n. Known builder.old (term_of term.now)
            → Serves store.old builder.old self.old
            → HasEquation builder.new n.line (term_of term.now) (term_of n.form)) }
        ensures extends { Known builder.old (term_of term.now) → Serves store.old builder.old self.old
            → Extends builder.old builder.new }
        ensures rules { self.new.rules ≡ self.old.rules }
        ensures kept { BelongsTo store.new self.new }
        ensures serves { Known builder.old (term_of term.now) → Serves store.old builder.old self.old
            → Serves store.new builder.new self.new }
        ensures err { OnErr result (self.new ≡ self.old) }
    {
        let count = self.kept.len();
        match run(store, builder, &self.rules, &mut self.kept, term, budget) {
            Ok(normal) => Ok(normal),
            Err(refusal) => {
                self.kept.cut(count);
                Err(refusal)
            }
        }
    }
}
