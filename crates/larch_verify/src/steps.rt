ghost use Rattle.std.specs.Prelude.{◌≡◌, ◌+◌, if◌then◌else◌, [], ◌∷◌, IsTrue, IfOk, IfSome, OnOk, Some, None, length};
ghost use Rattle.std.specs.Option.{option_map};
ghost use Rattle.larch_term.specs.declared.statement.Statement.{Statement};
ghost use Rattle.larch_verify_meaning.specs.Acceptance.{verdict_from};
ghost use Rattle.larch_verify_meaning.specs.Events.{Said};
ghost use Rattle.larch_verify_meaning.specs.Run.{judge, step};
ghost use Rattle.larch_verify_pool.specs.Pooled.{Grows};
ghost use Rattle.larch_verify_history.specs.Past.{IsPast, history_of};
ghost use Rattle.larch_verify.specs.Checking.{AreStatements, state_of};

use crate::boxes::open_box;
use crate::judging::judge;
use larch_base::Memory;
use larch_certificate::Line;
use larch_term::Theory;
use larch_verify_history::{KeptHistory, Stated};
use larch_verify_pool::Pool;
use std::alloc::Global;

// Takes lines in order, up to the first bad one, of which it gives the number.
pub(crate) fn take_lines(
    alloc: Global,
    pool: &mut Pool,
    theory: &Theory,
    axioms: &[Stated],
    past: &mut KeptHistory,
    lines: &[Line],
) -> Result<Option<u64>, Memory>
    requires past { IsPast theory.now pool.old past.old }
    requires axioms { AreStatements theory.now pool.old axioms.now }
    ensures bad { IfOk result (λ o. IfSome o (λ n. (s : Statement)
        → verdict_from theory.now s (state_of pool.old past.old) lines.now ≡ Some n)) }
    ensures past { IfOk result (λ o. o ≡ None → IsPast theory.now pool.new past.new) }
    ensures all { IfOk result (λ o. o ≡ None → (s : Statement)
        → verdict_from theory.now s (state_of pool.old past.old) lines.now
        ≡ verdict_from theory.now s (state_of pool.new past.new) []) }
{
    for line in lines {
        let number = past.places.len() as u64 + 1;
        let good = take_line(alloc, pool, theory, axioms, past, line)?;
        if !good {
            return Ok(Some(number));
        }
    }
    Ok(None)
}

// Takes one line. `false` where it is bad; then what is kept isn't used any more.
fn take_line(
    alloc: Global,
    pool: &mut Pool,
    theory: &Theory,
    axioms: &[Stated],
    past: &mut KeptHistory,
    line: &Line,
) -> Result<bool, Memory>
    requires past { IsPast theory.now pool.old past.old }
    requires axioms { AreStatements theory.now pool.old axioms.now }
    ensures past { IfOk result (λ b. IsTrue b → IsPast theory.now pool.new past.new) }
    ensures step { IfOk result (λ b. step theory.now (state_of pool.old past.old) line.now
        ≡ (if b then Some (state_of pool.new past.new) else None)) }
    ensures grows { OnOk result (Grows pool.old pool.new) }
{
    match line {
        Line::BoxLine(parts, hypotheses) => {
            let good = open_box(
                alloc,
                pool,
                theory,
                past,
                parts.as_slice(),
                hypotheses.as_slice(),
            )?;
            Ok(good)
        }
        Line::Done => {
            let good = past.end_box()?;
            Ok(good)
        }
        _ => {
            let good = say_line(alloc, pool, theory, axioms, past, line)?;
            Ok(good)
        }
    }
}

// Takes a line that says something, if it does.
fn say_line(
    alloc: Global,
    pool: &mut Pool,
    theory: &Theory,
    axioms: &[Stated],
    past: &mut KeptHistory,
    line: &Line,
) -> Result<bool, Memory>
    requires past { IsPast theory.now pool.old past.old }
    requires axioms { AreStatements theory.now pool.old axioms.now }
    ensures past { IfOk result (λ b. IsTrue b → IsPast theory.now pool.new past.new) }
    ensures says { IfOk result (λ b.
        option_map (λ s. Said (length past.old.places.items + 1) s ∷ history_of pool.old past.old)
        (judge theory.now (history_of pool.old past.old) line.now)
        ≡ (if b then Some (history_of pool.new past.new) else None)) }
    ensures count { IfOk result (λ b. IsTrue b → length past.new.places.items ≡ length past.old.places.items + 1) }
    ensures grows { OnOk result (Grows pool.old pool.new) }
{
    let stated = judge(alloc, pool, theory, axioms, past, line)?;
    let Some(stated) = stated else {
        return Ok(false);
    };
    past.say(stated)?;
    Ok(true)
}
