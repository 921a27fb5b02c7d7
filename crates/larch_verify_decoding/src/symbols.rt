ghost use Rattle.std.specs.Prelude.{◌≡◌, ◌<◌, length, map, All, IfOk, IfSome, OnOk, Some, slice_get};
ghost use Rattle.std.specs.Option.{option_map, option_and_then};
ghost use Rattle.larch_base.specs.ByNumber.{numbered};
ghost use Rattle.larch_term.specs.BuiltIn.{bool_sort, built_in};
ghost use Rattle.larch_term.specs.Sorts.{sorts_of};
ghost use Rattle.larch_term.specs.Tree.{forest_of};
ghost use Rattle.larch_verify_meaning.specs.Context.{find_open, find_symbol, last_sort};
ghost use Rattle.larch_verify_meaning.specs.Events.{operators_of, part_operator};
ghost use Rattle.larch_verify_pool.specs.Pooled.{tree_in, operator_in, operator_of, Grows};
ghost use Rattle.larch_verify_history.specs.Past.{IsPast, history_of};

use larch_base::{Memory, Name, numbered};
use larch_certificate::{BoxPart, Symbol};
use larch_term::{BuiltIn, Sort, bool_sort};
use larch_verify_history::Context;
use larch_verify_pool::{Pool, SortList, SymbolName, intern_operator};
use std::alloc::Global;

/// The number of the operator that a symbol means before arguments, if it means one: one of the theory's, one of an
/// open box, or a built-in one.
pub fn find_operator(
    alloc: Global,
    pool: &mut Pool,
    context: &Context<'_>,
    symbol: Symbol,
    arguments: &[u32],
) -> Result<Option<u32>, Memory>
    requires past { IsPast context.now.theory.now pool.old context.now.past.now }
    requires arguments { All (λ n. n < length pool.old.trees) arguments.now }
    ensures operator { IfOk result (λ o. option_and_then (slice_get pool.new.operators) o
        ≡ find_symbol context.now.theory.now (history_of pool.old context.now.past.now) symbol
        (sorts_of (forest_of (map (tree_in pool.old.trees) arguments.now)))) }
    ensures within { IfOk result (λ o. IfSome o (λ n. n < length pool.new.operators)) }
    ensures grows { OnOk result (Grows pool.old pool.new) }
    ensures trees { OnOk result (pool.new.trees ≡ pool.old.trees) }
{
    match symbol {
        Symbol::Own(number) => Ok(own_operator(pool, context, number)),
        Symbol::Constant(of_box, number) => {
            let operator = box_operator(alloc, pool, context, of_box, number)?;
            Ok(operator)
        }
        Symbol::BuiltIn(kind) => {
            let operator = built_in_operator(alloc, pool, kind, arguments)?;
            Ok(Some(operator))
        }
    }
}

/// The number of the theory's operator with a number, counted from 1. It takes no memory.
pub fn own_operator(pool: &Pool, context: &Context<'_>, number: u64) -> Option<u32>
    requires { IsPast context.now.theory.now pool.now context.now.past.now }
    ensures operator { option_and_then (slice_get pool.now.operators) result
        ≡ numbered context.now.theory.now.operators number }
    ensures within { IfSome result (λ n. n < length pool.now.operators) }
{
    numbered(&context.past.own, number).copied()
}

// The number of what an open box makes by the part with a number, counted from 1.
fn box_operator(
    alloc: Global,
    pool: &mut Pool,
    context: &Context<'_>,
    of_box: u64,
    number: u64,
) -> Result<Option<u32>, Memory>
    requires { IsPast context.now.theory.now pool.old context.now.past.now }
    ensures operator { IfOk result (λ o. option_and_then (slice_get pool.new.operators) o
        ≡ option_and_then (λ b. numbered (operators_of b) number)
        (find_open (history_of pool.old context.now.past.now) of_box)) }
    ensures within { IfOk result (λ o. IfSome o (λ n. n < length pool.new.operators)) }
    ensures grows { OnOk result (Grows pool.old pool.new) }
    ensures trees { OnOk result (pool.new.trees ≡ pool.old.trees) }
{
    let Some(known) = context.past.open_box(of_box) else {
        return Ok(None);
    };
    let Some(part) = numbered(known.parts.as_slice(), number) else {
        return Ok(None);
    };
    let symbol = symbol_of(alloc, known.number, number, part)?;
    let operator = pool.operator(symbol)?;
    Ok(Some(operator))
}

/// What the part with a number makes, of the box with a number.
pub fn symbol_of(
    alloc: Global,
    of_box: u64,
    number: u64,
    part: &BoxPart,
) -> Result<larch_verify_pool::PoolSymbol, Memory>
    ensures { IfOk result (λ s. operator_of s ≡ part_operator of_box number part.now) }
{
    let name = SymbolName::Boxed(of_box, number);
    let sort = part.sort.copy()?;
    if !part.predicate {
        return Ok(larch_verify_pool::PoolSymbol {
            name,
            domain: SortList::from_vec(Vec::new(alloc)),
            range: sort,
        });
    }
    let mut domain = Vec::new(alloc);
    domain.push(sort)?;
    let range = bool_sort(alloc)?;
    Ok(larch_verify_pool::PoolSymbol {
        name,
        domain: SortList::from_vec(domain),
        range,
    })
}

// The number of a built-in operator at the sort of the last argument.
fn built_in_operator(
    alloc: Global,
    pool: &mut Pool,
    kind: BuiltIn,
    arguments: &[u32],
) -> Result<u32, Memory>
    requires { All (λ n. n < length pool.old.trees) arguments.now }
    ensures operator { IfOk result (λ n. slice_get pool.new.operators n
        ≡ Some (built_in kind (last_sort (sorts_of (forest_of (map (tree_in pool.old.trees) arguments.now)))))) }
    ensures grows { OnOk result (Grows pool.old pool.new) }
    ensures trees { OnOk result (pool.new.trees ≡ pool.old.trees) }
{
    let sort = sort_of_last(alloc, pool, arguments)?;
    let operator = kind.operator(alloc, &sort)?;
    let number = intern_operator(alloc, pool, &operator)?;
    Ok(number)
}

// The sort of the last argument; no bytes where there is none.
fn sort_of_last(alloc: Global, pool: &Pool, arguments: &[u32]) -> Result<Sort, Memory>
    requires { All (λ n. n < length pool.now.trees) arguments.now }
    ensures { IfOk result (λ s. s ≡ last_sort (sorts_of (forest_of (map (tree_in pool.now.trees) arguments.now)))) }
{
    if arguments.is_empty() {
        let none = Name::new(alloc, b"")?;
        return Ok(none);
    }
    let sort = pool.sort_of(arguments[arguments.len() - 1]).copy()?;
    Ok(sort)
}
