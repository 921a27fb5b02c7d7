ghost use Rattle.std.specs.Prelude.{◌≡◌};
ghost use Rattle.larch_prove_plans.specs.declared.refusal.PlanRefusal.TheVariants.{Memory as wants_memory};

use larch_base::Memory;
use thiserror::Error;

/// Why a method has no plan for a goal.
#[derive(Clone, Copy, Debug, PartialEq, Eq, Error)]
pub enum PlanRefusal {
    /// The goal hasn't the shape that the method wants.
    #[error("another shape")]
    Shape,
    /// The goal has no variable with the name.
    #[error("no such variable")]
    Variable,
    /// No clause generates the sort.
    #[error("not generated")]
    Generated,
    /// No clause partitions the sort.
    #[error("not partitioned")]
    Partitioned,
    /// Out of memory.
    #[error("out of memory")]
    Memory,
}

impl From<Memory> for PlanRefusal {
    ghost from_gives = { λ _ refusal. refusal ≡ wants_memory };

    fn from(_memory: Memory) -> PlanRefusal {
        PlanRefusal::Memory
    }
}
