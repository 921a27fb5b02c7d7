ghost use Rattle.std.specs.Prelude.{Ok};
ghost use Rattle.larch_base.specs.Answering.{Answers};
ghost use Rattle.larch_base_meaning.specs.Steps.{after};
ghost use Rattle.larch_flat_meaning.specs.Replacements.{replacements_of};
ghost use Rattle.larch_flat_meaning.specs.TraitsItemsRefusal.{cause};
ghost use Rattle.larch_import_references.specs.Pairs.{pairs_by};

use crate::pairs::pairs_by;
use larch_flat_meaning::from_traits_items::TraitRefusal;
use larch_flat_replacing::replacements_of;
use larch_import_names::Renaming;
use larch_raw::{RawForm, RawRef};
use larch_term::Operator;
use std::alloc::Global;

/// The new sort of each sort of the trait that a reference names, Bool among them, and the new operator of each of its
/// operators, each once: the trait has these operators and formals. It is refused exactly where the reference's names
/// can't be given.
pub fn renaming(
    alloc: Global,
    operators: &[Operator],
    formals: &[RawForm],
    reference: &RawRef,
) -> Result<Renaming, TraitRefusal>
    ensures { Answers cause result
        (after (replacements_of operators.now formals.now reference.now) (λ by. Ok (pairs_by by operators.now))) }
{
    let by = replacements_of(alloc, operators, formals, reference)?;
    let made = pairs_by(alloc, &by, operators)?;
    Ok(made)
}
