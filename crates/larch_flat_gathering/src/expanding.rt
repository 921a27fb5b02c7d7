ghost use Rattle.std.specs.Prelude.{◌≡◌, Ok};
ghost use Rattle.larch_base.specs.Answering.{Answers};
ghost use Rattle.larch_flat_statements.specs.TraitsItemsRefusal.{cause};
ghost use Rattle.larch_base_meaning.specs.Steps.{after};
ghost use Rattle.larch_flat_statements.specs.ShorthandRefusal.{cause as told_of_shorthand};
ghost use Rattle.larch_flat_statements.specs.ShorthandShorthand.{expand, expand_operators};

use larch_base::Code;
use larch_flat_statements::from_shorthand::{ExpandRefusal, Expansion, expand, expand_operators};
use larch_flat_statements::from_traits_items::TraitRefusal;
use larch_raw::RawShorthand;
use larch_term::{Operators, Statements};
use std::alloc::Global;

// The operators that a shorthand stands for.
pub(crate) fn operators_of(
    alloc: Global,
    shorthand: &RawShorthand,
) -> Result<Operators, TraitRefusal>
    ensures { Answers cause result (expand_operators shorthand.now) }
{
    match expand_operators(alloc, shorthand) {
        Ok(operators) => Ok(operators),
        Err(refusal) => Err(trait_refusal(refusal)),
    }
}

// What is stated of the operators that a shorthand stands for.
pub(crate) fn statements_of(
    alloc: Global,
    shorthand: &RawShorthand,
) -> Result<Statements, TraitRefusal>
    ensures { Answers cause result (after (expand shorthand.now) (λ e. Ok e.statements)) }
{
    match expand(alloc, shorthand) {
        Ok(expansion) => {
            let Expansion { statements, .. } = expansion;
            Ok(statements)
        }
        Err(refusal) => Err(trait_refusal(refusal)),
    }
}

// A refused shorthand is a refused trait.
fn trait_refusal(refusal: ExpandRefusal) -> TraitRefusal
    ensures { cause result ≡ told_of_shorthand refusal }
{
    match refusal {
        ExpandRefusal::FieldTwice(pos) => TraitRefusal::Wrong(pos, Code::FieldTwice),
        ExpandRefusal::BuiltIn(pos) => TraitRefusal::Wrong(pos, Code::BuiltIn),
        ExpandRefusal::Memory => TraitRefusal::Memory,
    }
}
