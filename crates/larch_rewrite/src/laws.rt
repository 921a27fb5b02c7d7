//! Laws of rules, and of rules that serve, each a call without work.
ghost use Rattle.std.specs.Prelude.{◌≡◌, ◌↔◌, IsTrue, List};
ghost use Rattle.larch_base.specs.declared.fact_name.FactName.{FactName};
ghost use Rattle.larch_derive.specs.Predicates.{Grows as builder_grows};
ghost use Rattle.larch_derive.specs.declared.builder.Builder.{Builder};
ghost use Rattle.larch_rewrite.specs.RuleSet.{BelongsTo, PlainRule, RuleSet, Serves, has_name};
ghost use Rattle.larch_store.specs.Numbered.{Numbered};
ghost use Rattle.larch_store.specs.Stored.{Grows};

/// A rule has a name exactly where that is its own.
pub fn names_are_told()
    ensures { (name : FactName) (r : PlainRule) → IsTrue (has_name name r) ↔ (r.name ≡ name) }
{}

/// What is kept belongs to a store when that has grown, and so it does where rules serve.
#[tactic(auto, using(crate::proofs::RuleSets::serving_belongs))]
pub fn what_is_kept_stays()
    ensures grown { (s u : List Numbered) (set : RuleSet) → Grows s u → BelongsTo s set → BelongsTo u set }
    ensures serving { (s : List Numbered) (b : Builder) (set : RuleSet) → Serves s b set → BelongsTo s set }
{}

/// Rules that serve with a store and a builder serve with them when both have grown.
pub fn rules_serve_on()
    ensures { (s u : List Numbered) (a b : Builder) (set : RuleSet) → Grows s u → builder_grows a b → Serves s a set
        → Serves u b set }
{}
