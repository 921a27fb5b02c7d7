ghost use Rattle.std.specs.Prelude.{◌≡◌, ◌++◌, ◌∷◌, [], ℕ, false, List, All, Contains, cond, OnOk, OnErr};
ghost use Rattle.larch_rewrite_match.specs.Heads.{IsIndexed, Suffice, found_under};
ghost use Rattle.larch_rewrite_match.specs.Rule.{IsRule};
ghost use Rattle.larch_rewrite_match.specs.declared.rule.RewriteRule.{RewriteRule as is_rule};
ghost use Rattle.larch_term.specs.Equality.{same_operator};
ghost use Rattle.larch_term.specs.Operator.{PlainOperator};
ghost use Rattle.larch_term.specs.Tree.{Forest, app, var};

use crate::shared::{RuleList, SharedRule};
use indexmap::IndexMap;
use larch_base::{Memory, Sequence};
use larch_term::{Node, Operator};
use std::alloc::Global;
use std::marker::Model;

/// Rules in the order in which they are tried, found by the operators at the heads of their left sides. Contracts see
/// them as a list. Where a left side is a variable all are tried at each term.
#[derive(Drop)]
pub struct RuleTable {
    alloc: Global,
    rules: Vec<SharedRule>,
    heads: IndexMap<Operator, RuleList>,
    has_variable: bool,
}

impl Model for RuleTable {
    ghost use Rattle.std.specs.Prelude.{List};
    ghost use Rattle.larch_rewrite_match.specs.Heads.{IsIndexed};
    ghost use Rattle.larch_rewrite_match.specs.declared.rule.RewriteRule.{RewriteRule};

    ghost Value = { List RewriteRule };

    ghost use Rattle.std.specs.Coded.{codes};
    ghost use Rattle.larch_term.specs.TreeCode.{coded_tree};

    ghost coded = { Prim.hlevel (codes, coded_tree) };

    ghost view = { λ table. table.rules.items };

    ghost invariant = { λ table. IsIndexed table.heads.entries table.has_variable table.rules.items };
}

impl RuleTable {
    /// No rules.
    #[tactic(auto, using(crate::proofs::Heads::none_indexed))]
    pub fn new(alloc: Global) -> RuleTable
        ensures { result ≡ [] }
    {
        RuleTable {
            alloc,
            rules: Vec::new(alloc),
            heads: IndexMap::new(alloc),
            has_variable: false,
        }
    }

    /// Where its memory comes from.
    pub fn allocator(&self) -> Global {
        self.alloc
    }

    /// Puts a rule behind the others. Where memory runs out nothing changes.
    pub fn push(&mut self, rule: SharedRule) -> Result<(), Memory>
        ensures ok { OnOk result (self.new ≡ self.old ++ rule ∷ []) }
        ensures err { OnErr result (self.new ≡ self.old) }
    {
        let copied = rule.copy()?;
        self.rules.push(copied)?;
        let Ok(()) = add_to_heads(self.alloc, &mut self.heads, &mut self.has_variable, &rule) else {
            let _ = self.rules.pop();
            return Err(Memory);
        };
        Ok(())
    }

    /// The rules that may apply where an operator is at the root. It takes the time of one look-up.
    #[tactic(auto, using(crate::proofs::Heads::found_suffice, crate::proofs::Heads::found_among, crate::proofs::Heads::all_among, crate::proofs::Heads::found_are))]
    pub fn with_head(&self, operator: &Operator) -> &[SharedRule]
        ensures suffice { (ts : Forest) → Suffice result.now self.now (app operator.now ts) }
        ensures among { All (Contains self.now) result.now }
        ensures rules { All IsRule self.now → All IsRule result.now }
    {
        if self.has_variable {
            return self.rules.as_slice();
        }
        found(&self.heads, operator)
    }

    /// The rules that may apply to a variable.
    #[tactic(auto, using(crate::proofs::Heads::none_suffice, crate::proofs::Heads::all_among, crate::proofs::Heads::none_among))]
    pub fn for_variables(&self) -> &[SharedRule]
        ensures suffice { (n s : List ℕ) → Suffice result.now self.now (var n s) }
        ensures among { All (Contains self.now) result.now }
        ensures rules { All IsRule self.now → All IsRule result.now }
    {
        if self.has_variable {
            return self.rules.as_slice();
        }
        &[]
    }
}

// Finds a rule behind others by its head too, or notes that its left side is a variable. Where memory runs out nothing
// is found otherwise.
#[tactic(auto, using(crate::proofs::Heads::one_indexed, crate::proofs::Heads::same_indexed))]
fn add_to_heads(
    alloc: Global,
    heads: &mut IndexMap<Operator, RuleList>,
    has_variable: &mut bool,
    rule: &SharedRule,
) -> Result<(), Memory>
    ensures ok { OnOk result ((rs : List is_rule) → IsIndexed heads.old.entries has_variable.old rs
        → IsIndexed heads.new.entries has_variable.new (rs ++ rule.now ∷ [])) }
    ensures err { OnErr result ((rs : List is_rule) → IsIndexed heads.old.entries has_variable.old rs
        → IsIndexed heads.new.entries has_variable.new rs) }
{
    match rule.rule().left().node() {
        Node::Var(_, _) => {
            *has_variable = true;
            Ok(())
        }
        Node::App(operator, _) => {
            put(alloc, heads, operator, rule)?;
            Ok(())
        }
    }
}

// Puts a rule behind those of one head. Where memory runs out the same are found.
#[tactic(auto, using(crate::proofs::Heads::put_behind, crate::proofs::Heads::put_same, crate::proofs::Heads::found_some, crate::proofs::Heads::found_none))]
fn put(
    alloc: Global,
    heads: &mut IndexMap<Operator, RuleList>,
    operator: &Operator,
    rule: &SharedRule,
) -> Result<(), Memory>
    ensures ok { OnOk result ((f : PlainOperator) → found_under heads.new.entries f
        ≡ found_under heads.old.entries f ++ cond (same_operator operator.now f) (rule.now ∷ []) []) }
    ensures err { OnErr result ((f : PlainOperator) → found_under heads.new.entries f
        ≡ found_under heads.old.entries f) }
{
    let rule = rule.copy()?;
    if let Some(rules) = heads.get_mut(operator) {
        return rules.push(rule);
    }
    let mut rules = Sequence::new(alloc);
    rules.push(rule)?;
    let operator = operator.copy()?;
    heads.insert(operator, rules)?;
    Ok(())
}

// The rules that stand under an operator.
fn found<'a>(heads: &'a IndexMap<Operator, RuleList>, operator: &Operator) -> &'a [SharedRule]
    ensures { result.now ≡ found_under heads.now.entries operator.now }
{
    match heads.get(operator) {
        Some(rules) => rules.as_slice(),
        None => &[],
    }
}
