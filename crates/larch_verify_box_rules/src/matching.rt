ghost use Rattle.std.specs.Prelude.{◌≡◌, ◌<◌, ◌↔◌, IsTrue, IfOk, OnOk, All, length, map, not};
ghost use Rattle.std.specs.List.{list_all};
ghost use Rattle.larch_calculus.specs.Formula.{constant};
ghost use Rattle.larch_verify_meaning.specs.Events.{operators_from, part_operator};
ghost use Rattle.larch_verify_meaning.specs.Matching.{has_constants};
ghost use Rattle.larch_verify_pool.specs.Pooled.{Pooled, tree_in, Grows, HasTree};
ghost use Rattle.larch_verify_history.specs.Past.{IsEquated, box_in, equated_in};

use larch_base::Memory;
use larch_certificate::BoxPart;
use larch_term::Sort;
use larch_verify_decoding::symbol_of;
use larch_verify_history::{Equated, KnownBox, same_equated};
use larch_verify_pool::{NodeNumbers, Pool};
use std::alloc::Global;

/// Whether the parts of a box are constants of these sorts, in order. It takes no memory.
pub fn has_constants(known: &KnownBox, sorts: &[Sort]) -> bool
    ensures { (p : Pooled) → result ≡ has_constants (box_in p known.now) sorts.now }
{
    are_constants(known.parts.as_slice()) && have_sorts(known.parts.as_slice(), sorts)
}

// Whether no part is a predicate.
fn are_constants(parts: &[BoxPart]) -> bool
    ensures { result ≡ list_all (λ p. not p.predicate) parts.now }
{
    parts.iter().all(|part| !part.predicate)
}

// Whether parts have these sorts, in order.
fn have_sorts(parts: &[BoxPart], sorts: &[Sort]) -> bool
    ensures { IsTrue result ↔ (map (λ p. p.sort) parts.now ≡ sorts.now) }
{
    if parts.len() != sorts.len() {
        return false;
    }
    for i in 0..parts.len() {
        if parts[i].sort != sorts[i] {
            return false;
        }
    }
    true
}

/// Whether equations are the same ones in the same order. It takes no memory.
pub fn same_equations(pool: &Pool, ones: &[Equated], others: &[Equated]) -> bool
    requires ones { All (IsEquated pool.now) ones.now }
    requires others { All (IsEquated pool.now) others.now }
    ensures { IsTrue result ↔ (map (equated_in pool.now) ones.now ≡ map (equated_in pool.now) others.now) }
{
    if ones.len() != others.len() {
        return false;
    }
    for i in 0..ones.len() {
        if !same_equated(pool, ones[i], others[i]) {
            return false;
        }
    }
    true
}

/// What the parts of a box make, in order, as terms without arguments.
pub fn constants_in(alloc: Global, pool: &mut Pool, known: &KnownBox) -> Result<NodeNumbers, Memory>
    ensures within { IfOk result (λ ns. All (λ n. n < length pool.new.trees) ns) }
    ensures trees { IfOk result (λ ns. map (tree_in pool.new.trees) ns
        ≡ map constant (operators_from known.now.number 1 known.now.parts)) }
    ensures grows { OnOk result (Grows pool.old pool.new) }
{
    let parts = known.parts.as_slice();
    let mut numbers = Vec::with_capacity(alloc, parts.len())?;
    for i in 0..parts.len() {
        let number = constant_in(alloc, pool, known.number, i as u64 + 1, &parts[i])?;
        numbers.push(number)?;
    }
    Ok(NodeNumbers::from_vec(numbers))
}

/// What the part with a number makes, of the box with a number, as a term without arguments.
pub fn constant_in(
    alloc: Global,
    pool: &mut Pool,
    of_box: u64,
    number: u64,
    part: &BoxPart,
) -> Result<u32, Memory>
    ensures tree { IfOk result (λ n. HasTree pool.new n (constant (part_operator of_box number part.now))) }
    ensures grows { OnOk result (Grows pool.old pool.new) }
{
    let symbol = symbol_of(alloc, of_box, number, part)?;
    let operator = pool.operator(symbol)?;
    let none = NodeNumbers::from_vec(Vec::new(alloc));
    let number = pool.apply(operator, none)?;
    Ok(number)
}
