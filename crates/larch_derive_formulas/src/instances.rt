ghost use Rattle.std.specs.Prelude.{◌≡◌, ◌+◌, ◌++◌, ◌∷◌, [], false, List, length, IfOk};
ghost use Rattle.larch_derive_lines.specs.DerivePredicates.{Extends, HasEquation};
ghost use Rattle.larch_derive_formulas.specs.Instances.{IsInstance, of_truths, of_values};
ghost use Rattle.larch_term.specs.Operator.{PlainOperator};
ghost use Rattle.larch_term.specs.Substitution.{is_entry_of};
ghost use Rattle.larch_term.specs.Tree.{Tree, app, forest_of};

use larch_base::{Memory, Name};
use larch_derive_lines::from_derive::Builder;
use larch_derive_lines::{push_argument, push_inst, push_row, push_sym, push_trans};
use larch_term::{Entry, Sort, Substitution, Term, bool_sort, copy};
use std::alloc::Global;

// A row, at its sort if it has one, with what takes the places of its variables.
#[derive(Drop)]
pub(crate) struct Instance {
    pub(crate) row: u64,
    pub(crate) sort: Option<Sort>,
    pub(crate) by: Substitution,
}

// The terms for the variables of a row. A row of one variable has it twice.
#[derive(Drop)]
pub(crate) struct Places<'a> {
    pub(crate) first: &'a Term,
    pub(crate) second: &'a Term,
}

// A row with terms for x and y.
pub(crate) fn of_truths(
    alloc: Global,
    row: u64,
    first: &Term,
    second: &Term,
) -> Result<Instance, Memory>
    ensures { IfOk result (λ i. i ≡ of_truths row first.now second.now) }
{
    let sort = bool_sort(alloc)?;
    let first = entry(alloc, b"x", &sort, first)?;
    let second = entry(alloc, b"y", &sort, second)?;
    let by = pair(alloc, first, second)?;
    Ok(Instance {
        row,
        sort: None,
        by,
    })
}

// A row at a sort, with terms for a and b.
pub(crate) fn of_values(
    alloc: Global,
    row: u64,
    sort: &Sort,
    first: &Term,
    second: &Term,
) -> Result<Instance, Memory>
    ensures { IfOk result (λ i. i ≡ of_values row sort.now first.now second.now) }
{
    let first = entry(alloc, b"a", sort, first)?;
    let second = entry(alloc, b"b", sort, second)?;
    let by = pair(alloc, first, second)?;
    let sort = sort.copy()?;
    Ok(Instance {
        row,
        sort: Some(sort),
        by,
    })
}

fn entry(alloc: Global, name: &[u8], sort: &Sort, term: &Term) -> Result<Entry, Memory>
    ensures { IfOk result (λ e. e ≡ record { name = name.now; sort = sort.now; term = term.now }) }
{
    let term = copy(alloc, term)?;
    let name = Name::new(alloc, name)?;
    let sort = sort.copy()?;
    Ok(Entry { name, sort, term })
}

// The substitution with these entries.
fn pair(alloc: Global, first: Entry, second: Entry) -> Result<Substitution, Memory>
    requires { is_entry_of second.name second.sort first ≡ false }
    ensures { IfOk result (λ by. by ≡ first ∷ second ∷ []) }
{
    let mut by = Substitution::new(alloc);
    let Entry { name, sort, term } = first;
    by.push(name, sort, term)?;
    let Entry { name, sort, term } = second;
    by.push(name, sort, term)?;
    Ok(by)
}

// A line that says a row with these terms.
#[tactic(auto, using(larch_derive::proofs::Growth::extends_same))]
pub(crate) fn push_instance(
    alloc: Global,
    builder: &mut Builder,
    instance: Instance,
) -> Result<u64, Memory>
    ensures says { IfOk result (λ n. (l r : Tree) → IsInstance builder.old instance l r
        → HasEquation builder.new n l r) }
    ensures extends { (l r : Tree) → IsInstance builder.old instance l r → Extends builder.old builder.new }
{
    let Instance { row, sort, by } = instance;
    let line = push_row(builder, row, sort)?;
    let number = push_inst(alloc, builder, line, &by)?;
    Ok(number)
}

// A line that says it with the sides exchanged.
#[tactic(auto, using(larch_derive::proofs::Growth::extends_same))]
pub(crate) fn push_reverse(
    alloc: Global,
    builder: &mut Builder,
    instance: Instance,
) -> Result<u64, Memory>
    ensures says { IfOk result (λ n. (l r : Tree) → IsInstance builder.old instance l r
        → HasEquation builder.new n r l) }
    ensures extends { (l r : Tree) → IsInstance builder.old instance l r → Extends builder.old builder.new }
{
    let line = push_instance(alloc, builder, instance)?;
    let number = push_sym(builder, line)?;
    Ok(number)
}

// A line that goes on from another one by a row with these terms.
#[tactic(auto, using(larch_derive::proofs::Growth::extends_same))]
pub(crate) fn push_through(
    alloc: Global,
    builder: &mut Builder,
    line: u64,
    instance: Instance,
) -> Result<u64, Memory>
    ensures says { IfOk result (λ n. (s l r : Tree) → HasEquation builder.old line s l
        → IsInstance builder.old instance l r → HasEquation builder.new n s r) }
    ensures extends { (s l r : Tree) → HasEquation builder.old line s l → IsInstance builder.old instance l r
        → Extends builder.old builder.new }
{
    let further = push_instance(alloc, builder, instance)?;
    let number = push_trans(alloc, builder, line, further)?;
    Ok(number)
}

// A line that goes back by a row, then changes an argument as a line says, the argument being counted from 1.
#[tactic(auto, using(larch_derive::proofs::Growth::extends_same))]
pub(crate) fn push_change(
    alloc: Global,
    builder: &mut Builder,
    instance: Instance,
    argument: u64,
    line: u64,
) -> Result<u64, Memory>
    ensures says { IfOk result (λ n. (f : PlainOperator) (done rest : List Tree) (t u r : Tree)
        → IsInstance builder.old instance (app f (forest_of (done ++ t ∷ rest))) r → argument ≡ length done + 1
        → HasEquation builder.old line t u → HasEquation builder.new n r (app f (forest_of (done ++ u ∷ rest)))) }
    ensures extends { (f : PlainOperator) (done rest : List Tree) (t u r : Tree)
        → IsInstance builder.old instance (app f (forest_of (done ++ t ∷ rest))) r → argument ≡ length done + 1
        → HasEquation builder.old line t u → Extends builder.old builder.new }
{
    let back = push_reverse(alloc, builder, instance)?;
    let number = push_argument(alloc, builder, back, argument, line)?;
    Ok(number)
}

// Then it goes on by a further row.
#[tactic(auto, using(larch_derive::proofs::Growth::extends_same))]
pub(crate) fn push_reach(
    alloc: Global,
    builder: &mut Builder,
    first: Instance,
    argument: u64,
    line: u64,
    second: Instance,
) -> Result<u64, Memory>
    ensures says { IfOk result (λ n. (f : PlainOperator) (done rest : List Tree) (t u r v : Tree)
        → IsInstance builder.old first (app f (forest_of (done ++ t ∷ rest))) r → argument ≡ length done + 1
        → HasEquation builder.old line t u → IsInstance builder.old second (app f (forest_of (done ++ u ∷ rest))) v
        → HasEquation builder.new n r v) }
    ensures extends { (f : PlainOperator) (done rest : List Tree) (t u r v : Tree)
        → IsInstance builder.old first (app f (forest_of (done ++ t ∷ rest))) r → argument ≡ length done + 1
        → HasEquation builder.old line t u → IsInstance builder.old second (app f (forest_of (done ++ u ∷ rest))) v
        → Extends builder.old builder.new }
{
    let changed = push_change(alloc, builder, first, argument, line)?;
    let number = push_through(alloc, builder, changed, second)?;
    Ok(number)
}
