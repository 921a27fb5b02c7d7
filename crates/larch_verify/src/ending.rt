ghost use Rattle.std.specs.Prelude.{◌≡◌, All, IfOk, IfSome};
ghost use Rattle.std.specs.Option.{option_map};
ghost use Rattle.larch_verify_meaning.specs.Acceptance.{ends_with, last_statement};
ghost use Rattle.larch_verify_pool.specs.Pooled.{Pooled};
ghost use Rattle.larch_verify_history.specs.Past.{IsHappened, IsPast, IsStated, history_of, stated_in};

use larch_base::Memory;
use larch_term::{Statement, Theory};
use larch_verify_history::{KeptEvent, KeptHistory, Stated, intern_statement, same_stated};
use larch_verify_pool::Pool;
use std::alloc::Global;

// Whether no box is open and the last line says the statement.
pub(crate) fn ends_with(
    alloc: Global,
    pool: &mut Pool,
    theory: &Theory,
    past: &KeptHistory,
    statement: &Statement,
) -> Result<bool, Memory>
    requires { IsPast theory.now pool.old past.now }
    ensures { IfOk result (λ b. b ≡ ends_with statement.now (history_of pool.old past.now)) }
{
    if !past.levels.is_empty() {
        return Ok(false);
    }
    let Some(last) = last_statement(past) else {
        return Ok(false);
    };
    let wanted = intern_statement(alloc, pool, statement)?;
    Ok(same_stated(pool, &wanted, last))
}

// What the last line says, if it says something.
fn last_statement(past: &KeptHistory) -> Option<&Stated>
    ensures says { (p : Pooled) → option_map (λ s. stated_in p s.now) result ≡ last_statement (history_of p past.now) }
    ensures within { (p : Pooled) → All (IsHappened p) past.now.events.items → IfSome result (λ s. IsStated p s.now) }
{
    let Some(event) = past.events.last() else {
        return None;
    };
    match event {
        KeptEvent::Says(_, stated) => Some(stated),
        KeptEvent::Opens(_) => None,
        KeptEvent::Closes(_, _) => None,
    }
}
