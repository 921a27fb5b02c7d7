ghost use Rattle.std.specs.Prelude.{◌≡◌, All, IfOk, map};
ghost use Rattle.larch_complete.specs.Work.{completion_in};
ghost use Rattle.larch_complete_meaning.specs.Completion.{Decides, IsDerivable, complete as completed, equations_of};
ghost use Rattle.larch_complete_meaning.specs.declared.answer.CompletionAnswer.TheVariants.{Complete as is_complete};
ghost use Rattle.larch_complete_rounds.specs.Certified.{IsCertified, sides_behind};
ghost use Rattle.larch_derive.specs.Words.{IsWordedTheory};
ghost use Rattle.larch_term.specs.Statement.{IsWellSortedTheory};

use crate::equations::{queue_of, state_task};
use crate::rounds::work_through;
use crate::work::Work;
use larch_base::{Memory, Sequence};
use larch_complete_meaning::CompletionAnswer;
use larch_complete_rounds::{CertifiedRule, CompletionTask, Rewriter};
use larch_term::Theory;
use std::alloc::Global;

/// What a completion comes to: how it ends, and the rules so far, each with its certificate.
#[derive(Drop)]
pub struct Completion {
    pub answer: CompletionAnswer,
    pub rules: Sequence<CertifiedRule>,
}

/// The rules that are made of a theory's equations, with a rewriting limit for the two sides of each equation together,
/// and how their making ends. Each rule has a certificate for its equation over the theory, whatever the answer is.
/// Where it is complete, the rules give both sides of each equation of the theory and of each of their critical pairs
/// one normal form.
pub fn complete(alloc: Global, theory: &Theory, limit: u32) -> Result<Completion, Memory>
    requires sorted { IsWellSortedTheory theory.now }
    requires worded { IsWordedTheory theory.now }
    ensures completed { IfOk result (λ c. completion_in c ≡ completed theory.now limit) }
    ensures certified { IfOk result (λ c. All (IsCertified theory.now) c.rules) }
    ensures derivable { IfOk result (λ c. All (IsDerivable theory.now) (map sides_behind c.rules)) }
    ensures decided { IfOk result (λ c. c.answer ≡ is_complete
        → Decides (map sides_behind c.rules) limit (equations_of theory.now)) }
{
    let mut rewriter = Rewriter::new(alloc, theory)?;
    let task = state_task(alloc, &mut rewriter.builder, theory, limit)?;
    let waiting = queue_of(alloc, task.equations.as_slice())?;
    let mut work = Work {
        rewriter,
        rules: Sequence::new(alloc),
        waiting,
    };
    let answer = work_through(alloc, &mut work, &task)?;
    let Work { rules, .. } = work;
    Ok(Completion { answer, rules })
}
