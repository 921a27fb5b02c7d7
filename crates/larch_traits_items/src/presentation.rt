ghost use Rattle.larch_base.specs.Answering.{Answers};
ghost use Rattle.larch_traits_items.specs.Presentation.{presentation_of};
ghost use Rattle.larch_traits_items.specs.Refusal.{cause};

use crate::declarations::declare;
use crate::items::state_items;
use crate::refusal::TraitRefusal;
use larch_raw::RawTrait;
use larch_sorts::from_sorts_signature::Signature;
use larch_term::Theory;
use std::alloc::Global;

/// What a trait by itself declares and states, or what is wrong with it first: its declarations are looked at, then
/// its items, each in the order of the text.
pub fn present(alloc: Global, raw: &RawTrait) -> Result<Theory, TraitRefusal>
    ensures { Answers cause result (presentation_of raw.now) }
{
    let operators = declare(alloc, raw.declarations.as_slice())?;
    let signature = Signature::from_operators(alloc, operators)?;
    let statements = state_items(alloc, &signature, raw.items.as_slice())?;
    let operators = signature.into_operators();
    Ok(Theory {
        operators,
        statements,
    })
}
