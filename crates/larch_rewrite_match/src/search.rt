ghost use Rattle.std.specs.Prelude.{◌≡◌, IfOk, IfSome, All, Contains};
ghost use Rattle.larch_rewrite_match.specs.Heads.{Suffice};
ghost use Rattle.larch_rewrite_match.specs.Rule.{IsRule};
ghost use Rattle.larch_rewrite_match.specs.Search.{IsFoundIn, IsFirst, IsMatch};
ghost use Rattle.larch_store.specs.Numbered.{term_of};
ghost use Rattle.larch_store.specs.Stored.{Belongs};

use crate::patterns::{MatchBindings, matching};
use crate::rule::RewriteRule;
use crate::shared::SharedRule;
use crate::table::RuleTable;
use larch_base::Memory;
use larch_store::{Shared, SharedNode, Store};
use std::alloc::Global;

/// A rule that applies to a term: the term is its left side, as that stands or with the sides of an equality exchanged,
/// where the variables stand for what they are bound to.
#[derive(Drop)]
pub struct Match<'a> {
    pub rule: &'a RewriteRule,
    pub exchanged: bool,
    pub by: MatchBindings<'a>,
}

/// The first of a table's rules that applies to a term at its root.
#[tactic(auto, using(crate::proofs::Searching::first_among))]
pub fn first_in_table<'a>(
    alloc: Global,
    store: &Store,
    rules: &'a RuleTable,
    term: &Shared,
) -> Result<Option<Match<'a>>, Memory>
    requires term { Belongs store.now term.now }
    requires rules { All IsRule rules.now }
    ensures first { IfOk result (IsFirst rules.now (term_of term.now)) }
    ensures bound { IfOk result (λ found. IfSome found (IsFoundIn store.now)) }
{
    let found = first_match(alloc, store, rules_for(rules, term), term)?;
    Ok(found)
}

// The rules that may apply to a term at its root.
#[tactic(auto, using(crate::proofs::Shares::variables_suffice, crate::proofs::Shares::head_suffices))]
fn rules_for<'a>(rules: &'a RuleTable, term: &Shared) -> &'a [SharedRule]
    ensures suffice { Suffice result.now rules.now (term_of term.now) }
    ensures among { All (Contains rules.now) result.now }
    ensures rules { All IsRule rules.now → All IsRule result.now }
{
    match term.node() {
        SharedNode::Variable(_, _) => rules.for_variables(),
        SharedNode::Application(operator, _) => rules.with_head(operator),
    }
}

/// The first of some rules that applies to a term at its root. Each is tried as it stands and, where its left side is
/// an equality, right behind that with the sides exchanged.
#[tactic(auto, using(crate::proofs::Searching::here_none, crate::proofs::Searching::here_some))]
pub fn first_match<'a>(
    alloc: Global,
    store: &Store,
    rules: &'a [SharedRule],
    term: &Shared,
) -> Result<Option<Match<'a>>, Memory>
    requires term { Belongs store.now term.now }
    requires rules { All IsRule rules.now }
    ensures first { IfOk result (IsFirst rules.now (term_of term.now)) }
    ensures bound { IfOk result (λ found. IfSome found (IsFoundIn store.now)) }
{
    for rule in rules {
        if let Some(found) = match_rule(alloc, store, rule.rule(), term)? {
            return Ok(Some(found));
        }
    }
    Ok(None)
}

#[tactic(auto, using(crate::proofs::Searching::tried_by, crate::proofs::Turned::turned_has_two))]
fn match_rule<'a>(
    alloc: Global,
    store: &Store,
    rule: &'a RewriteRule,
    term: &Shared,
) -> Result<Option<Match<'a>>, Memory>
    requires term { Belongs store.now term.now }
    requires rule { IsRule rule.now }
    ensures made { IfOk result (IsMatch rule.now (term_of term.now)) }
    ensures bound { IfOk result (λ found. IfSome found (IsFoundIn store.now)) }
{
    if let Some(by) = matching(alloc, store, &rule.left, term)? {
        return Ok(Some(Match {
            rule,
            exchanged: false,
            by,
        }));
    }
    let Some(turned) = &rule.turned else {
        return Ok(None);
    };
    if let Some(by) = matching(alloc, store, turned, term)? {
        return Ok(Some(Match {
            rule,
            exchanged: true,
            by,
        }));
    }
    Ok(None)
}
