ghost use Rattle.std.specs.Prelude.{◌≡◌, ◌++◌, ◌∷◌, [], cond, length, not, map, option_copied, slice_get, IfOk};
ghost use Rattle.std.specs.Prelude.{OnOk, OnErr};
ghost use Rattle.std.specs.List.{list_any};
ghost use Rattle.larch_rewrite.specs.RuleSet.{has_name, rule_of, without};

use crate::named_rule::NamedRule;
use larch_base::{FactName, Memory};
use larch_rewrite_step::from_rewrite_match::RuleTable;
use std::alloc::Global;
use std::marker::Model;

/// A layer of rules: some with their names, in the order in which they are tried, found by the operators at the heads
/// of their left sides. Contracts see them as a list.
#[derive(Drop)]
pub(crate) struct NamedRules {
    rules: Vec<NamedRule>,
    table: RuleTable,
}

impl Model for NamedRules {
    ghost use Rattle.std.specs.Prelude.{◌≡◌, List, map};
    ghost use Rattle.std.specs.Coded.{coded_list};
    ghost use Rattle.larch_rewrite.specs.RuleSet.{PlainRule, rule_of};
    ghost use Rattle.larch_rewrite.specs.RuleSetCode.{coded_rule};

    ghost Value = { List PlainRule };

    ghost coded = { coded_list coded_rule };

    ghost view = { λ named. named.rules.items };

    ghost invariant = { λ named. named.table ≡ map rule_of named.rules.items };
}

impl NamedRules {
    // No rules. It takes no memory.
    pub(crate) fn new(alloc: Global) -> NamedRules
        ensures { result ≡ [] }
    {
        NamedRules {
            rules: Vec::new(alloc),
            table: RuleTable::new(alloc),
        }
    }

    // The rules without their names, found by their heads.
    pub(crate) fn table(&self) -> &RuleTable
        ensures { result.now ≡ map rule_of self.now }
    {
        &self.table
    }

    // How many there are.
    pub(crate) fn len(&self) -> usize
        ensures { result ≡ length self.now }
    {
        self.rules.len()
    }

    // The rule at a place, if there is one.
    pub(crate) fn get(&self, index: usize) -> Option<&NamedRule>
        ensures { option_copied result ≡ slice_get self.now index }
    {
        self.rules.get(index)
    }

    // Puts a rule behind the others. Where memory runs out nothing changes.
    pub(crate) fn push(&mut self, rule: NamedRule) -> Result<(), Memory>
        ensures ok { OnOk result (self.new ≡ self.old ++ rule ∷ []) }
        ensures err { OnErr result (self.new ≡ self.old) }
    {
        let shared = rule.rule().copy()?;
        self.rules.push(rule)?;
        let Ok(()) = self.table.push(shared) else {
            let _ = self.rules.pop();
            return Err(Memory);
        };
        Ok(())
    }

    // Puts a rule once more behind the others.
    fn push_copy(&mut self, rule: &NamedRule) -> Result<(), Memory>
        ensures { OnOk result (self.new ≡ self.old ++ rule.now ∷ []) }
    {
        let rule = rule.copy()?;
        self.push(rule)
    }

    // Puts further rules behind the others.
    pub(crate) fn push_all(&mut self, further: &NamedRules) -> Result<(), Memory>
        ensures { OnOk result (self.new ≡ self.old ++ further.now) }
    {
        for rule in further.rules.as_slice() {
            self.push_copy(rule)?;
        }
        Ok(())
    }

    // Whether a rule has a name.
    pub(crate) fn has_name(&self, name: &FactName) -> bool
        ensures { result ≡ list_any (has_name name.now) self.now }
    {
        for rule in self.rules.as_slice() {
            if rule.has_name(name) {
                return true;
            }
        }
        false
    }

    // The rules that have another name.
    pub(crate) fn without(&self, name: &FactName) -> Result<NamedRules, Memory>
        ensures { IfOk result (λ others. others ≡ without name.now self.now) }
    {
        let mut others = NamedRules::new(self.table.allocator());
        for rule in self.rules.as_slice() {
            others.push_other(rule, name)?;
        }
        Ok(others)
    }

    // Puts a rule once more behind the others, unless it has a name.
    fn push_other(&mut self, rule: &NamedRule, name: &FactName) -> Result<(), Memory>
        ensures { OnOk result (self.new ≡ self.old ++ cond (not (has_name name.now rule.now)) (rule.now ∷ []) []) }
    {
        if rule.has_name(name) {
            return Ok(());
        }
        self.push_copy(rule)
    }
}
