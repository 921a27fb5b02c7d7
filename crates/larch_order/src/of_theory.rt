ghost use Rattle.std.specs.Prelude.{◌≡◌, ◌++◌, ◌∷◌, [], map, IfOk, OnOk};
ghost use Rattle.larch_order.specs.Precedence.{new_rank, precedence_of};

use crate::precedence::{Precedence, Ranked};
use larch_base::{Memory, Sequence, Way};
use larch_sorts_known::{existing_sorts, push_built_ins};
use larch_term::{Operator, Theory};
use std::alloc::Global;

impl Precedence {
    /// The precedence of a theory: the built-in operators, and above them the theory's in order.
    #[tactic(auto, using(crate::proofs::BuiltIns::ranked_in_turn))]
    pub fn of_theory(alloc: Global, theory: &Theory) -> Result<Precedence, Memory>
        ensures { IfOk result (λ precedence. precedence ≡ precedence_of theory.now.operators) }
    {
        let operators = theory.operators.as_slice();
        let sorts = existing_sorts(alloc, operators)?;
        let mut built_ins = Sequence::new(alloc);
        push_built_ins(alloc, &mut built_ins, sorts.as_slice())?;
        let mut ranks = Vec::new(alloc);
        push_operators(&mut ranks, built_ins.as_slice())?;
        push_operators(&mut ranks, operators)?;
        Precedence::from_ranks(ranks)
    }
}

fn push_operators(ranks: &mut Vec<Ranked>, operators: &[Operator]) -> Result<(), Memory>
    ensures { OnOk result (ranks.new.items ≡ ranks.old.items ++ map new_rank operators.now) }
{
    for operator in operators {
        let operator = operator.copy()?;
        push(ranks, operator)?;
    }
    Ok(())
}

// Puts an operator above the others.
fn push(ranks: &mut Vec<Ranked>, operator: Operator) -> Result<(), Memory>
    ensures { OnOk result (ranks.new.items ≡ ranks.old.items ++ new_rank operator ∷ []) }
{
    ranks.push(Ranked {
        operator,
        status: Way::LeftToRight,
    })?;
    Ok(())
}
