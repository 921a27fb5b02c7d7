ghost use Rattle.std.specs.Prelude.{◌≡◌, IfOk, OnOk, Some, slice_get};
ghost use Rattle.larch_term.specs.declared.statement.Statement.TheVariants.{Equation};
ghost use Rattle.larch_calculus.specs.Formula.{constant};
ghost use Rattle.larch_verify_meaning.specs.Events.{box_constant, box_predicate};
ghost use Rattle.larch_verify_pool.specs.Pooled.{Grows, HasTree};
ghost use Rattle.larch_verify_history.specs.Past.{IsEquated, equated_in};

use larch_base::Memory;
use larch_certificate::BoxPart;
use larch_term::Sort;
use larch_verify_decoding::symbol_of;
use larch_verify_history::Equated;
use larch_verify_pool::{NodeNumbers, Pool};
use std::alloc::Global;

// The number of the predicate on a sort that is the first part of the box with a number.
pub(crate) fn predicate_in(
    alloc: Global,
    pool: &mut Pool,
    of_box: u64,
    sort: &Sort,
) -> Result<u32, Memory>
    ensures operator { IfOk result (λ n. slice_get pool.new.operators n ≡ Some (box_predicate of_box 1 sort.now)) }
    ensures grows { OnOk result (Grows pool.old pool.new) }
{
    let sort = sort.copy()?;
    let part = BoxPart {
        sort,
        predicate: true,
    };
    let symbol = symbol_of(alloc, of_box, 1, &part)?;
    let number = pool.operator(symbol)?;
    Ok(number)
}

// The constant of a sort with a number, of the box with a number.
fn constant_in(
    alloc: Global,
    pool: &mut Pool,
    of_box: u64,
    number: u64,
    sort: &Sort,
) -> Result<u32, Memory>
    ensures tree { IfOk result (λ n. HasTree pool.new n (constant (box_constant of_box number sort.now))) }
    ensures grows { OnOk result (Grows pool.old pool.new) }
{
    let sort = sort.copy()?;
    let part = BoxPart {
        sort,
        predicate: false,
    };
    let symbol = symbol_of(alloc, of_box, number, &part)?;
    let operator = pool.operator(symbol)?;
    let term = pool.apply(operator, NodeNumbers::from_vec(Vec::new(alloc)))?;
    Ok(term)
}

// The first two constants of the box with a number, both of a sort.
pub(crate) fn two_constants(
    alloc: Global,
    pool: &mut Pool,
    of_box: u64,
    sort: &Sort,
) -> Result<Equated, Memory>
    ensures within { IfOk result (λ e. IsEquated pool.new e) }
    ensures says { IfOk result (λ e. equated_in pool.new e
        ≡ Equation (constant (box_constant of_box 1 sort.now)) (constant (box_constant of_box 2 sort.now))) }
    ensures grows { OnOk result (Grows pool.old pool.new) }
{
    let left = constant_in(alloc, pool, of_box, 1, sort)?;
    let right = constant_in(alloc, pool, of_box, 2, sort)?;
    Ok(Equated { left, right })
}
