ghost use Rattle.std.specs.Prelude.{◌≡◌, map, IfOk};
ghost use Rattle.larch_models_meaning.specs.FiniteModel.{last_among};
ghost use Rattle.larch_models_meaning.specs.Standard.{standard_last};

use larch_base::{Memory, Sequence};
use larch_models_meaning::SortValues;
use larch_term::Sort;
use std::alloc::Global;

/// The last value of a sort, as the first entry for it says. It takes no memory.
pub(crate) fn last_value(sorts: &[SortValues], sort: &Sort) -> u32
    ensures { result ≡ standard_last (last_among sorts.now) sort.now }
{
    if sort.bytes() == b"Bool".as_slice() {
        1
    } else {
        last_named(sorts, sort)
    }
}

// What the first entry for a sort says.
#[tactic(auto, using(crate::proofs::Lasts::last_here, crate::proofs::Lasts::last_further))]
fn last_named(sorts: &[SortValues], sort: &Sort) -> u32
    ensures { result ≡ last_among sorts.now sort.now }
{
    for values in sorts {
        if values.sort == *sort {
            return values.last;
        }
    }
    0
}

/// The last value of each of these sorts.
pub(crate) fn last_values(
    alloc: Global,
    sorts: &[SortValues],
    named: &[Sort],
) -> Result<Sequence<u32>, Memory>
    ensures { IfOk result (λ lasts. lasts ≡ map (standard_last (last_among sorts.now)) named.now) }
{
    let mut lasts = Sequence::new(alloc);
    for sort in named {
        lasts.push(last_value(sorts, sort))?;
    }
    Ok(lasts)
}
