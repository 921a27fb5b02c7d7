ghost use Rattle.std.specs.Prelude.{◌≡◌, IfOk};

use crate::rule::RewriteRule;
use larch_base::{Memory, Sequence};
use std::alloc::Global;
use std::marker::Model;
use std::rc::Rc;

/// A rule that its copies share. Contracts see it as the rule.
#[derive(Drop)]
pub struct SharedRule {
    rule: Rc<RewriteRule>,
}

/// Rules in the order in which they are tried.
pub type RuleList = Sequence<SharedRule>;

impl Model for SharedRule {
    ghost use Rattle.larch_rewrite_match.specs.declared.rule.RewriteRule.{RewriteRule};

    ghost Value = { RewriteRule };

    ghost use Rattle.std.specs.Coded.{codes};
    ghost use Rattle.larch_term.specs.TreeCode.{coded_tree};

    ghost coded = { Prim.hlevel (codes, coded_tree) };

    ghost view = { λ shared. shared.rule.value };
}

impl SharedRule {
    /// The rule, to be shared.
    pub fn new(alloc: Global, rule: RewriteRule) -> Result<SharedRule, Memory>
        ensures { IfOk result (λ shared. shared ≡ rule) }
    {
        let rule = Rc::new(alloc, rule)?;
        Ok(SharedRule { rule })
    }

    /// The same rule once more. It takes no memory of its own, but there may be too many copies.
    pub fn copy(&self) -> Result<SharedRule, Memory>
        ensures { IfOk result (λ shared. shared ≡ self.now) }
    {
        let rule = self.rule.clone()?;
        Ok(SharedRule { rule })
    }

    /// The rule.
    pub fn rule(&self) -> &RewriteRule
        ensures { result.now ≡ self.now }
    {
        self.rule.as_ref()
    }
}
