ghost use Rattle.std.specs.Prelude.{◌≡◌, ◌++◌, IfOk, OnOk};
ghost use Rattle.larch_calculus.specs.Theories.{with_statements};
ghost use Rattle.larch_prove_beginning.specs.ProveOpeningStating.{duties_of, what_state};

use larch_base::Memory;
use larch_prove_beginning::from_prove_opening::Lemma;
use larch_prove_resuming::from_prove_work::Claim;
use larch_term::{Statement, Statements, Theory, copy_operators, copy_statement, copy_statements};
use std::alloc::Global;

/// What is to be proved, over a theory, by lemmas that were proved earlier.
#[derive(Drop)]
pub struct ProofDuty<'a> {
    pub theory: &'a Theory,
    pub statement: &'a Statement,
    pub lemmas: &'a [Lemma],
}

// The claim of a duty: its statement, over the theory with what the lemmas state behind its own statements.
pub(crate) fn claim_of(alloc: Global, duty: &ProofDuty<'_>) -> Result<Claim, Memory>
    ensures theory { IfOk result (λ claim. claim.theory
        ≡ with_statements duty.now.theory.now (what_state (duties_of duty.now.lemmas.now))) }
    ensures statement { IfOk result (λ claim. claim.statement ≡ duty.now.statement.now) }
{
    let operators = copy_operators(alloc, duty.theory.operators.as_slice())?;
    let mut statements = copy_statements(alloc, duty.theory.statements.as_slice())?;
    add_lemmas(alloc, &mut statements, duty.lemmas)?;
    let theory = Theory {
        operators,
        statements,
    };
    let statement = copy_statement(alloc, duty.statement)?;
    Ok(Claim { theory, statement })
}

// Puts what lemmas state behind other statements.
fn add_lemmas(alloc: Global, statements: &mut Statements, lemmas: &[Lemma]) -> Result<(), Memory>
    ensures { OnOk result (statements.new ≡ statements.old ++ what_state (duties_of lemmas.now)) }
{
    for lemma in lemmas {
        let copied = copy_statement(alloc, &lemma.statement)?;
        statements.push(copied)?;
    }
    Ok(())
}
