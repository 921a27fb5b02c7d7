ghost use Rattle.std.specs.Prelude.{◌≡◌, false, true, IfOk, IfSome, IfNone};
ghost use Rattle.larch_prove_boxes.specs.DerivePredicates.{Extends, HasEquation};
ghost use Rattle.larch_prove_adding.specs.KeptFacts.{facts_of};
ghost use Rattle.larch_prove_levels.specs.Level.{IsReady, IsStored};
ghost use Rattle.larch_prove_levels.specs.Settled.{is_settled_by};
ghost use Rattle.larch_store.specs.Numbered.{term_of};
ghost use Rattle.larch_store.specs.Stored.{Belongs};
ghost use Rattle.larch_term.specs.Truth.{truth, is_truth};

use crate::level::Level;
use larch_base::Memory;
use larch_prove_boxes::from_derive::Builder;
use larch_prove_boxes::from_derive_formulas::absurd;
use larch_store::{Shared, Store};
use larch_term::{BuiltIn, is_truth};
use std::alloc::Global;

/// The line that says that a level's first goal is true, where the level is proved: its goal is true, or its facts
/// contradict each other; none where it isn't. The one refusal is out of memory. The builder may have further lines,
/// none of them bad, also behind a refusal.
#[tactic(auto, using(larch_derive::proofs::Growth::extends_same))]
pub fn line_of_goal(
    alloc: Global,
    store: &Store,
    builder: &mut Builder,
    level: &Level,
) -> Result<Option<u64>, Memory>
    requires ready { IsReady store.now builder.old level.now }
    requires stored { IsStored store.now level.now }
    ensures proved { IfOk result (λ said. IfSome said (λ _.
        is_settled_by (facts_of level.now.facts) (term_of level.now.goal.term) ≡ true)) }
    ensures says { IfOk result (λ said. IfSome said (λ n.
        HasEquation builder.new n (term_of level.now.first) truth)) }
    ensures open { IfOk result (λ said. IfNone said
        (is_settled_by (facts_of level.now.facts) (term_of level.now.goal.term) ≡ false)) }
    ensures extends { Extends builder.old builder.new }
{
    if is_true(store, &level.goal.term)? {
        return Ok(Some(level.goal.way));
    }
    let Some(line) = level.facts.absurd() else {
        return Ok(None);
    };
    let first = store.to_term(&level.first)?;
    let truth = BuiltIn::True.constant(alloc)?;
    let number = absurd(alloc, builder, &first, &truth, line)?;
    Ok(Some(number))
}

// Whether a shared term is the constant true.
#[tactic(auto, using(crate::proofs::Settling::large_untrue))]
fn is_true(store: &Store, term: &Shared) -> Result<bool, Memory>
    requires { Belongs store.now term.now }
    ensures { IfOk result (λ told. told ≡ is_truth (term_of term.now)) }
{
    if store.size(term) > 1 {
        return Ok(false);
    }
    let term = store.to_term(term)?;
    Ok(is_truth(&term))
}
