ghost use Rattle.std.specs.Prelude.{◌≡◌, IfOk};
ghost use Rattle.larch_rewrite.specs.RuleSet.{has_name, rule_by, rule_of};

use larch_base::{FactName, Memory};
use larch_rewrite_step::from_rewrite_match::{Reason, RewriteRule, SharedRule};
use larch_term::{Term, copy};
use std::alloc::Global;
use std::marker::Model;

/// A rule under a name, said by a line. Its copies share it. Contracts see its name, its sides and its line.
#[derive(Drop)]
pub struct NamedRule {
    name: FactName,
    rule: SharedRule,
}

impl Model for NamedRule {
    ghost use Rattle.larch_rewrite.specs.RuleSet.{PlainRule, IsLineRule, plain_of};
    ghost use Rattle.larch_rewrite.specs.RuleSetCode.{coded_rule};

    ghost Value = { PlainRule };

    ghost coded = { coded_rule };

    ghost view = { λ named. plain_of named.name named.rule };

    ghost invariant = { λ named. IsLineRule named.rule };
}

impl NamedRule {
    // The rule with these sides.
    #[tactic(auto, using(crate::proofs::PlainRules::is_line_rule, crate::proofs::PlainRules::is_plain))]
    pub(crate) fn new(
        alloc: Global,
        name: FactName,
        left: &Term,
        right: &Term,
        line: u64,
    ) -> Result<NamedRule, Memory>
        ensures { IfOk result (λ rule. rule ≡ rule_by name left.now right.now line) }
    {
        let left = copy(alloc, left)?;
        let right = copy(alloc, right)?;
        let rule = RewriteRule::new(alloc, left, right, Reason::Line(line))?;
        let rule = SharedRule::new(alloc, rule)?;
        Ok(NamedRule { name, rule })
    }

    // The same rule once more. It takes no memory of its own, but there may be too many copies.
    pub(crate) fn copy(&self) -> Result<NamedRule, Memory>
        ensures { IfOk result (λ rule. rule ≡ self.now) }
    {
        let rule = self.rule.copy()?;
        Ok(NamedRule {
            name: self.name,
            rule,
        })
    }

    // The rule without its name.
    #[tactic(auto, using(crate::proofs::PlainRules::is_rule_of))]
    pub(crate) fn rule(&self) -> &SharedRule
        ensures { result.now ≡ rule_of self.now }
    {
        &self.rule
    }

    /// Its left side.
    pub fn left(&self) -> &Term
        ensures { result.now ≡ self.now.left }
    {
        self.rule.rule().left()
    }

    /// Its right side.
    pub fn right(&self) -> &Term
        ensures { result.now ≡ self.now.right }
    {
        self.rule.rule().right()
    }

    /// The number of the line that says it.
    pub fn line(&self) -> u64
        ensures { result ≡ self.now.line }
    {
        match self.rule.rule().reason() {
            Reason::Line(line) => *line,
            Reason::Row(_, _) => unreachable!(),
        }
    }

    /// Whether it has a name.
    #[tactic(auto, using(crate::proofs::PlainRules::name_told))]
    pub fn has_name(&self, name: &FactName) -> bool
        ensures { result ≡ has_name name.now self.now }
    {
        self.name == *name
    }
}
