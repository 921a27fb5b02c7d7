ghost use Rattle.std.specs.Prelude.{◌≡◌, true, IfOk, IfErr};
ghost use Rattle.larch_rewrite_step.specs.Applying.{MayRefuse, IsTried};
ghost use Rattle.larch_rewrite_step.specs.Encoding.{AreEncodings, AreOfStore};
ghost use Rattle.larch_rewrite_step.specs.Holding.{IsWordedReason, ReasonSays, RuleHolds};
ghost use Rattle.larch_derive.specs.Predicates.{HasEquation, Extends, Known, HasNoBadLine};
ghost use Rattle.larch_rewrite_match.specs.Bound.{entries_of};
ghost use Rattle.larch_rewrite_match.specs.Rule.{left_of, reason_of, right_of};
ghost use Rattle.larch_rewrite_match.specs.Search.{IsFoundIn, IsBy};
ghost use Rattle.larch_store.specs.Numbered.{term_of};
ghost use Rattle.larch_store.specs.Stored.{Belongs, Grows};
ghost use Rattle.larch_term.specs.Arguments.{has_two_arguments};
ghost use Rattle.larch_term.specs.Substitution.{instance_of};
ghost use Rattle.larch_term.specs.Tree.{Tree};

use crate::encoding::Encodings;
use crate::exchanging::push_exchanged;
use crate::making::made;
use crate::refusal::ApplyRefusal;
use crate::writing::write_bound;
use larch_base::Memory;
use larch_derive::Builder;
use larch_derive_lines::{push_row, push_written_inst};
use larch_rewrite_match::{Match, Reason, RewriteRule};
use larch_store::{Shared, Store};
use larch_term::Sort;
use std::alloc::Global;

/// What a rule makes of a term, and the line that says that both are equal.
#[derive(Drop)]
pub struct Applied {
    pub term: Shared,
    pub line: u64,
}

/// A line that says what a reason says. A refused line changes nothing.
#[tactic(auto, using(larch_derive::proofs::Growth::extends_same))]
pub fn push_reason(builder: &mut Builder, reason: &Reason) -> Result<u64, Memory>
    ensures says { IfOk result (λ n. (l r : Tree) → HasNoBadLine builder.old → ReasonSays builder.old reason.now l r
        → IsWordedReason reason.now → HasEquation builder.new n l r) }
    ensures extends { (l r : Tree) → HasNoBadLine builder.old → ReasonSays builder.old reason.now l r
        → IsWordedReason reason.now → Extends builder.old builder.new }
{
    match reason {
        Reason::Line(number) => Ok(*number),
        Reason::Row(number, sort) => {
            let sort = copy_sort(sort)?;
            let line = push_row(builder, *number, sort)?;
            Ok(line)
        }
    }
}

fn copy_sort(sort: &Option<Sort>) -> Result<Option<Sort>, Memory>
    ensures { IfOk result (λ copied. copied ≡ sort.now) }
{
    match sort {
        Some(sort) => {
            let sort = sort.copy()?;
            Ok(Some(sort))
        }
        None => Ok(None),
    }
}

// A line that says a rule, with the sides of the equality on its left exchanged where that was matched.
#[tactic(auto, using(larch_derive::proofs::Growth::extends_same))]
fn push_rule(
    alloc: Global,
    builder: &mut Builder,
    rule: &RewriteRule,
    exchanged: bool,
) -> Result<u64, Memory>
    requires { exchanged ≡ true → has_two_arguments (left_of rule.now) ≡ true }
    ensures says { IfOk result (λ n. (x : Tree) → HasNoBadLine builder.old → RuleHolds builder.old rule.now
        → IsWordedReason (reason_of rule.now) → IsTried rule.now exchanged x
        → HasEquation builder.new n x (right_of rule.now)) }
    ensures extends { (x : Tree) → HasNoBadLine builder.old → RuleHolds builder.old rule.now
        → IsWordedReason (reason_of rule.now) → IsTried rule.now exchanged x → Extends builder.old builder.new }
{
    let said = push_reason(builder, rule.reason())?;
    if !exchanged {
        return Ok(said);
    }
    let line = push_exchanged(alloc, builder, said, rule.left())?;
    Ok(line)
}

/// What a rule that applies makes of a term, with a line that says that both are equal. `TooLarge` where it has more
/// than 5,000 nodes. For the line what the rule's variables stand for is written, unless it was written before. A
/// refused application may leave lines behind, none of them bad.
#[tactic(auto, using(larch_derive::proofs::Growth::extends_same, larch_store::proofs::Growth::grows_refl, crate::proofs::RightSides::bound_stay, crate::proofs::RightSides::store_refuses, crate::proofs::Written::of_store_stay))]
pub fn apply_match<'a>(
    alloc: Global,
    store: &mut Store,
    builder: &mut Builder,
    encodings: &mut Encodings,
    found: &Match<'a>,
) -> Result<Applied, ApplyRefusal>
    requires bound { IsFoundIn store.old found.now }
    requires encodings { AreOfStore store.old encodings.old }
    ensures term { IfOk result (λ a. term_of a.term
        ≡ instance_of (entries_of found.now.by) (right_of found.now.rule.now)) }
    ensures belongs { IfOk result (λ a. Belongs store.new a.term) }
    ensures refused { IfErr result (MayRefuse (instance_of (entries_of found.now.by) (right_of found.now.rule.now))) }
    ensures says { IfOk result (λ a. (t : Tree) → Known builder.old t → RuleHolds builder.old found.now.rule.now
        → IsBy found.now.rule.now found.now.exchanged t (entries_of found.now.by)
        → AreEncodings builder.old encodings.old
        → HasEquation builder.new a.line t (term_of a.term)) }
    ensures extends { (t : Tree) → Known builder.old t → RuleHolds builder.old found.now.rule.now
        → IsBy found.now.rule.now found.now.exchanged t (entries_of found.now.by)
        → AreEncodings builder.old encodings.old
        → Extends builder.old builder.new }
    ensures grows { Grows store.old store.new }
    ensures belong { AreOfStore store.new encodings.new }
    ensures encodings { AreEncodings builder.old encodings.old → AreEncodings builder.old encodings.new }
{
    let bound = found.by.as_slice();
    let term = made(alloc, store, found.rule.right(), bound)?;
    let by = write_bound(store, builder, encodings, bound)?;
    let tried = push_rule(alloc, builder, found.rule, found.exchanged)?;
    let line = push_written_inst(builder, tried, by)?;
    Ok(Applied { term, line })
}
