ghost use Rattle.std.specs.Prelude.{◌≡◌, ◌++◌, ◌∷◌, [], true, false, Some, IfOk, OnOk};
ghost use Rattle.std.specs.List.{list_any};
ghost use Rattle.larch_rewrite_step.specs.Exchanging.{IsExchange, pair_at};
ghost use Rattle.larch_derive.specs.CalculusFormula.{equality};
ghost use Rattle.larch_derive.specs.Predicates.{HasEquation, Extends, HasNoBadLine};
ghost use Rattle.larch_derive_lines.specs.Rules.{AreKnownEntries};
ghost use Rattle.larch_rewrite_match.specs.Exchanged.{exchange_equality};
ghost use Rattle.larch_term.specs.Arguments.{has_two_arguments};
ghost use Rattle.larch_term.specs.Substitution.{is_entry_of};
ghost use Rattle.larch_term.specs.Tree.{Tree};

use larch_base::{Memory, Name};
use larch_derive::Builder;
use larch_derive_lines::{push_inst, push_row, push_trans};
use larch_rewrite_match::sort_at;
use larch_term::{Sort, Substitution, Term, copy, two_arguments};
use std::alloc::Global;

// The row that says that an equality may be exchanged.
const EXCHANGING_ROW: u64 = 34;

// How an equality is exchanged: its sort, and what its sides take the places of.
#[derive(Drop)]
pub(crate) struct Exchange {
    pub(crate) sort: Sort,
    pub(crate) by: Substitution,
}

/// A line that says what another one says, with the sides of the equality on the left exchanged. A refused line may
/// leave lines behind, none of them bad.
#[tactic(auto, using(larch_derive::proofs::Growth::extends_same))]
pub fn push_exchanged(
    alloc: Global,
    builder: &mut Builder,
    line: u64,
    left: &Term,
) -> Result<u64, Memory>
    requires { has_two_arguments left.now ≡ true }
    ensures says { IfOk result (λ n. (x r : Tree) → exchange_equality left.now ≡ Some x
        → HasEquation builder.old line left.now r
        → HasEquation builder.new n x r) }
    ensures extends { (x r : Tree) → exchange_equality left.now ≡ Some x → HasEquation builder.old line left.now r
        → Extends builder.old builder.new }
{
    let exchange = exchange_of(alloc, left)?;
    let exchanged = push_exchange(alloc, builder, exchange)?;
    let number = push_trans(alloc, builder, exchanged, line)?;
    Ok(number)
}

// The line that says that an equality is the exchanged one.
#[tactic(auto, using(larch_derive::proofs::Growth::extends_same))]
pub(crate) fn push_exchange(
    alloc: Global,
    builder: &mut Builder,
    exchange: Exchange,
) -> Result<u64, Memory>
    ensures says { IfOk result (λ n. (s t : Tree) → HasNoBadLine builder.old → AreKnownEntries builder.old exchange.by
        → exchange.by ≡ pair_at exchange.sort s t
        → HasEquation builder.new n (equality exchange.sort s t) (equality exchange.sort t s)) }
    ensures extends { (s t : Tree) → HasNoBadLine builder.old → AreKnownEntries builder.old exchange.by
        → exchange.by ≡ pair_at exchange.sort s t → Extends builder.old builder.new }
{
    let Exchange { sort, by } = exchange;
    let row = push_row(builder, EXCHANGING_ROW, Some(sort))?;
    let number = push_inst(alloc, builder, row, &by)?;
    Ok(number)
}

// How a term of two arguments is exchanged.
fn exchange_of(alloc: Global, term: &Term) -> Result<Exchange, Memory>
    requires { has_two_arguments term.now ≡ true }
    ensures { IfOk result (λ exchange. IsExchange term.now exchange.sort exchange.by) }
{
    let Some(two) = two_arguments(term) else {
        unreachable!()
    };
    let sort = sort_at(alloc, two.operator)?;
    let by = pair_at(alloc, &sort, two.right, two.left)?;
    Ok(Exchange { sort, by })
}

fn pair_at(alloc: Global, sort: &Sort, left: &Term, right: &Term) -> Result<Substitution, Memory>
    ensures { IfOk result (λ by. by ≡ pair_at sort.now left.now right.now) }
{
    let mut by = Substitution::new(alloc);
    bind(alloc, &mut by, b"a", sort, left)?;
    bind(alloc, &mut by, b"b", sort, right)?;
    Ok(by)
}

// Binds a variable that isn't bound.
fn bind(
    alloc: Global,
    by: &mut Substitution,
    name: &[u8],
    sort: &Sort,
    term: &Term,
) -> Result<(), Memory>
    requires { list_any (is_entry_of name.now sort.now) by.old ≡ false }
    ensures { OnOk result (by.new ≡ by.old ++ record { name = name.now; sort = sort.now; term = term.now } ∷ []) }
{
    let name = Name::new(alloc, name)?;
    let sort = sort.copy()?;
    let term = copy(alloc, term)?;
    by.push(name, sort, term)?;
    Ok(())
}
