ghost use Rattle.std.specs.Prelude.{◌≡◌, map, IfOk};
ghost use Rattle.larch_flat_meaning.specs.Replacements.{new_operator, new_sort};
ghost use Rattle.larch_flat_replacing.specs.Kept.{KeepsNew};

use crate::replacements::Replacements;
use indexmap::IndexMap;
use larch_base::{Memory, Sequence};
use larch_term::{Operator, Operators, Sort};
use std::alloc::Global;
use std::marker::Model;

/// Replacements, with the new operators of a trait, each of which is made once. Contracts see the replacements.
pub struct NewNames {
    by: Replacements,
    operators: IndexMap<Operator, Operator>,
}

// By a call, so that a proof takes new names apart in one place alone.
impl Drop for NewNames {
    fn drop(self) {
        let NewNames {
            by: _by,
            operators: _operators,
        } = self;
    }
}

impl Model for NewNames {
    ghost use Rattle.larch_flat_meaning.specs.Replacements.{Replacements as Lists};
    ghost use Rattle.larch_flat_replacing.specs.Kept.{KeepsNew, coded_replacements};

    ghost Value = { Lists };

    ghost coded = { coded_replacements };

    ghost view = { λ names. names.by };

    ghost invariant = { λ names. KeepsNew names.by names.operators.entries };
}

impl NewNames {
    /// These replacements, with the new operators of a trait with these operators.
    pub fn new(alloc: Global, by: Replacements, operators: &[Operator]) -> Result<NewNames, Memory>
        ensures { IfOk result (λ names. names ≡ by) }
    {
        let operators = kept_operators(alloc, &by, operators)?;
        Ok(NewNames { by, operators })
    }

    /// The replacements. It takes no memory.
    pub fn replacements(&self) -> &Replacements
        ensures { result.now ≡ self.now }
    {
        &self.by
    }

    /// The sort in place of a sort, found at once.
    pub fn sort(&self, sort: &Sort) -> Result<Sort, Memory>
        ensures { IfOk result (λ new. new ≡ new_sort self.now sort.now) }
    {
        let new = self.by.sort(sort)?;
        Ok(new)
    }

    /// The operator in place of an operator, found at once where it is the trait's own, and made afresh else.
    pub fn operator(&self, alloc: Global, operator: &Operator) -> Result<Operator, Memory>
        ensures { IfOk result (λ new. new ≡ new_operator self.now operator.now) }
    {
        match self.operators.get(operator) {
            Some(new) => {
                let new = new.copy()?;
                Ok(new)
            }
            None => {
                let new = self.by.operator(alloc, operator)?;
                Ok(new)
            }
        }
    }

    /// The operators in place of operators, in order.
    pub fn operators(&self, alloc: Global, operators: &[Operator]) -> Result<Operators, Memory>
        ensures { IfOk result (λ new. new ≡ map (new_operator self.now) operators.now) }
    {
        let mut new = Sequence::new(alloc);
        for operator in operators {
            let other = self.operator(alloc, operator)?;
            new.push(other)?;
        }
        Ok(new)
    }
}

// The new operators of a trait, each under the old one; where nothing is replaced there are none.
#[tactic(auto, using(crate::proofs::Lookups::more_kept))]
fn kept_operators(
    alloc: Global,
    by: &Replacements,
    operators: &[Operator],
) -> Result<IndexMap<Operator, Operator>, Memory>
    ensures { IfOk result (λ kept. KeepsNew by.now kept.entries) }
{
    let mut kept = IndexMap::new(alloc);
    if by.is_none() {
        return Ok(kept);
    }
    for operator in operators {
        let new = by.operator(alloc, operator)?;
        let operator = operator.copy()?;
        kept.insert(operator, new)?;
    }
    Ok(kept)
}
