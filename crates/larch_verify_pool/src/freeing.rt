ghost use Rattle.std.specs.Prelude.{◌≡◌, ◌<◌, length, All, IfOk, OnOk};
ghost use Rattle.larch_verify_pool.specs.Pooled.{tree_in, Grows, HasTree};
ghost use Rattle.larch_verify_pool.specs.Freeing.{freed_by};

use crate::exchanging::{Rule, exchange};
use crate::numbers::NodeNumbers;
use crate::pool::Pool;
use larch_base::Memory;
use std::alloc::Global;

/// The number of a term with nodes in the places of a box's constants, in order; the first constant has a number.
/// It takes time and memory by the different subterms of the term.
pub fn free_constants(
    alloc: Global,
    pool: &mut Pool,
    term: u32,
    of_box: u64,
    first: u64,
    images: NodeNumbers,
) -> Result<u32, Memory>
    requires term { term < length pool.old.trees }
    requires images { All (λ n. n < length pool.old.trees) images }
    ensures tree { IfOk result (λ n. HasTree pool.new n
        (freed_by pool.old.trees of_box first images (tree_in pool.old.trees term))) }
    ensures grows { OnOk result (Grows pool.old pool.new) }
    ensures operators { OnOk result (pool.new.operators ≡ pool.old.operators) }
{
    let rule = Rule::Constants(of_box, first, images);
    let number = exchange(alloc, pool, term, &rule)?;
    Ok(number)
}
