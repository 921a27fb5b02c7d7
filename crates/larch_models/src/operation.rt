ghost use Rattle.std.specs.Prelude.{◌≡◌, bytes_eq, map, IfOk};
ghost use Rattle.larch_models_meaning.specs.FiniteModel.{interpretation_of};
ghost use Rattle.larch_models.specs.Tables.{made_by};
ghost use Rattle.larch_models.specs.Clauses.{operation_at, plain_operation};

use crate::maker::{Maker, maker_of};
use crate::sorts::last_values;
use larch_base::{Memory, Sequence};
use larch_models_meaning::FiniteModel;
use larch_term::{Operator, Sort};
use std::alloc::Global;

/// An operator of a clause in a model.
#[derive(Drop)]
pub(crate) struct Operation<'a> {
    pub(crate) maker: Maker<'a>,
    /// The last value of each argument.
    pub(crate) lasts: Sequence<u32>,
    /// Whether each argument is of the clause's sort.
    pub(crate) own: Sequence<bool>,
}

/// The operators of a clause in a model.
pub(crate) fn operations_of<'a>(
    alloc: Global,
    model: &'a FiniteModel,
    sort: &Sort,
    operators: &[Operator],
) -> Result<Sequence<Operation<'a>>, Memory>
    ensures { IfOk result (λ found. map plain_operation found
        ≡ map (operation_at (interpretation_of model.now) sort.now) operators.now) }
{
    let mut found = Sequence::new(alloc);
    for operator in operators {
        let operation = operation_of(alloc, model, sort, operator)?;
        found.push(operation)?;
    }
    Ok(found)
}

#[tactic(auto, using(crate::proofs::Operations::operation_is))]
fn operation_of<'a>(
    alloc: Global,
    model: &'a FiniteModel,
    sort: &Sort,
    operator: &Operator,
) -> Result<Operation<'a>, Memory>
    ensures { IfOk result (λ operation. plain_operation operation
        ≡ operation_at (interpretation_of model.now) sort.now operator.now) }
{
    let lasts = last_values(alloc, model.sorts.as_slice(), operator.domain())?;
    let own = own_places(alloc, sort, operator.domain())?;
    let maker = maker_of(alloc, model, operator)?;
    Ok(Operation { maker, lasts, own })
}

// Whether each of these sorts is the one.
fn own_places(alloc: Global, sort: &Sort, sorts: &[Sort]) -> Result<Sequence<bool>, Memory>
    ensures { IfOk result (λ own. own ≡ map (λ r. bytes_eq r sort.now) sorts.now) }
{
    let mut own = Sequence::new(alloc);
    for named in sorts {
        own.push(*named == *sort)?;
    }
    Ok(own)
}
