ghost use Rattle.std.specs.Prelude.{◌≡◌, [], All, IfOk, length};
ghost use Rattle.larch_term.specs.Statement.{IsWellSortedTheory};
ghost use Rattle.larch_calculus.specs.Derivable.{Derivable};
ghost use Rattle.larch_calculus.specs.Renaming.{IsPlainName};
ghost use Rattle.larch_verify_meaning.specs.Acceptance.{verdict, verdict_from};
ghost use Rattle.larch_verify_pool.specs.Pooled.{Pooled};
ghost use Rattle.larch_verify_history.specs.Past.{IsPast, history_of};
ghost use Rattle.larch_verify.specs.Checking.{state_of};
ghost use Rattle.larch_verify.specs.Verdict.{refusal};
ghost use Rattle.larch_verify.specs.declared.verdict.Verdict.TheVariants.{Accepted};

use crate::ending::ends_with;
use crate::keeping::{intern_operators, intern_statements};
use crate::steps::take_lines;
use crate::verdict::Verdict;
use larch_base::Memory;
use larch_certificate::Line;
use larch_term::{Operator, Statement, Theory};
use larch_verify_history::KeptHistory;
use larch_verify_law::laws::accepted_is_derivable;
use larch_verify_pool::Pool;
use std::alloc::Global;

/// The verdict on a certificate for a statement over a theory. Whoever wrote the certificate: where it is accepted the
/// statement is derivable, if the theory's statements are well sorted.
///
/// A line takes time by the size of its own terms. Terms may have any depth, those of the theory and of the statement
/// too: nothing goes down them by recursion.
pub fn verify(
    alloc: Global,
    theory: &Theory,
    statement: &Statement,
    certificate: &[Line],
) -> Result<Verdict, Memory>
    ensures verdict { IfOk result (λ v. refusal v ≡ verdict theory.now statement.now certificate.now) }
    ensures derivable { IfOk result (λ v. v ≡ Accepted → IsWellSortedTheory theory.now
        → Derivable theory.now statement.now) }
{
    accepted_is_derivable();
    names_are_plain(theory.operators.as_slice());
    let verdict = check_verdict(alloc, theory, statement, certificate)?;
    Ok(verdict)
}

// No operator of the code has the name of a box's constant.
fn names_are_plain(operators: &[Operator])
    ensures { All (λ f. IsPlainName f.name) operators.now }
{
    for operator in operators {
        let _ = operator.name();
    }
}

// The verdict, with a pool and a past of its own.
fn check_verdict(
    alloc: Global,
    theory: &Theory,
    statement: &Statement,
    certificate: &[Line],
) -> Result<Verdict, Memory>
    ensures { IfOk result (λ v. refusal v ≡ verdict theory.now statement.now certificate.now) }
{
    let mut pool = Pool::new(alloc);
    let own = intern_operators(alloc, &mut pool, theory.operators.as_slice())?;
    let mut past = KeptHistory::new(alloc, own);
    let verdict = by_lines(alloc, &mut pool, theory, &mut past, statement, certificate)?;
    Ok(verdict)
}

// The verdict by all lines in order, before which nothing has happened, and by what there is at the end.
fn by_lines(
    alloc: Global,
    pool: &mut Pool,
    theory: &Theory,
    past: &mut KeptHistory,
    statement: &Statement,
    certificate: &[Line],
) -> Result<Verdict, Memory>
    requires past { IsPast theory.now pool.old past.old }
    requires count { length past.old.places.items ≡ 0 }
    requires history { (p : Pooled) → history_of p past.old ≡ [] }
    ensures { IfOk result (λ v. refusal v ≡ verdict theory.now statement.now certificate.now) }
{
    let axioms = intern_statements(alloc, pool, theory.statements.as_slice())?;
    let bad = take_lines(alloc, pool, theory, &axioms, past, certificate)?;
    if let Some(number) = bad {
        return Ok(Verdict::Refused(number));
    }
    let verdict = by_end(alloc, pool, theory, past, statement)?;
    Ok(verdict)
}

// The verdict behind the last line, where none was bad.
fn by_end(
    alloc: Global,
    pool: &mut Pool,
    theory: &Theory,
    past: &KeptHistory,
    statement: &Statement,
) -> Result<Verdict, Memory>
    requires { IsPast theory.now pool.old past.now }
    ensures { IfOk result (λ v. refusal v ≡ verdict_from theory.now statement.now (state_of pool.old past.now) []) }
{
    let ends = ends_with(alloc, pool, theory, past, statement)?;
    if ends {
        Ok(Verdict::Accepted)
    } else {
        Ok(Verdict::Refused(past.places.len() as u64 + 1))
    }
}
