ghost use Rattle.std.specs.Prelude.{◌++◌, All, map, IfOk, IfSome};
ghost use Rattle.larch_rewrite.specs.RuleSet.{rule_of};
ghost use Rattle.larch_rewrite.specs.Search.{IsRedex};
ghost use Rattle.larch_rewrite_step.specs.RewriteMatchRule.{IsRule};
ghost use Rattle.larch_rewrite_step.specs.RewriteMatchSearch.{AreRowsFor, IsFirst, IsFoundIn};
ghost use Rattle.larch_store.specs.Layers.{join_layers};
ghost use Rattle.larch_store.specs.Numbered.{term_of};
ghost use Rattle.larch_store.specs.Stored.{Belongs};

use crate::layered_rules::LayeredRules;
use crate::named_rules::NamedRules;
use larch_base::Memory;
use larch_rewrite_step::from_rewrite_match::{Match, SharedRule, first_in_table, first_match};
use larch_store::{Shared, Store};
use std::alloc::Global;
use std::rc::Rc;

/// The first of the rows for a term, or else of the rules, that applies to it at its root.
pub(crate) fn first_redex<'a>(
    alloc: Global,
    store: &Store,
    rows: &'a [SharedRule],
    rules: &'a LayeredRules,
    term: &Shared,
) -> Result<Option<Match<'a>>, Memory>
    requires term { Belongs store.now term.now }
    requires rows { AreRowsFor rows.now (term_of term.now) }
    requires row_rules { All IsRule rows.now }
    ensures found { IfOk result (IsRedex rows.now rules.now (term_of term.now)) }
    ensures bound { IfOk result (λ found. IfSome found (IsFoundIn store.now)) }
{
    if let Some(found) = first_match(alloc, store, rows, term)? {
        return Ok(Some(found));
    }
    rules.first(store, term)
}

/// The first rule of some layers, or else of a last one, that applies to a term at its root.
#[tactic(auto, using(crate::proofs::Found::are_rules, crate::proofs::Found::last_decides))]
pub(crate) fn first_among<'a>(
    alloc: Global,
    store: &Store,
    earlier: &'a [Rc<NamedRules>],
    last: &'a NamedRules,
    term: &Shared,
) -> Result<Option<Match<'a>>, Memory>
    requires { Belongs store.now term.now }
    ensures first { IfOk result (IsFirst
        (map rule_of (join_layers (map (λ layer. layer.value) earlier.now) ++ last.now)) (term_of term.now)) }
    ensures bound { IfOk result (λ found. IfSome found (IsFoundIn store.now)) }
{
    if let Some(found) = first_in_layers(alloc, store, earlier, term)? {
        return Ok(Some(found));
    }
    first_in_table(alloc, store, last.table(), term)
}

// The first rule of some layers that applies to a term at its root.
#[tactic(auto, using(crate::proofs::Found::are_rules))]
fn first_in_layers<'a>(
    alloc: Global,
    store: &Store,
    layers: &'a [Rc<NamedRules>],
    term: &Shared,
) -> Result<Option<Match<'a>>, Memory>
    requires { Belongs store.now term.now }
    ensures first { IfOk result (IsFirst
        (map rule_of (join_layers (map (λ layer. layer.value) layers.now))) (term_of term.now)) }
    ensures bound { IfOk result (λ found. IfSome found (IsFoundIn store.now)) }
{
    for layer in layers {
        if let Some(found) = first_in_table(alloc, store, layer.as_ref().table(), term)? {
            return Ok(Some(found));
        }
    }
    Ok(None)
}
