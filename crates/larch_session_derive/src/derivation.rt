ghost use Rattle.std.specs.Prelude.{◌++◌, ◌∷◌, [], IfOk};
ghost use Rattle.larch_session_derive.specs.Parts.{AreReplayed};
ghost use Rattle.larch_session_derive_meaning.specs.Derived.{IsDerived};
ghost use Rattle.larch_session_replay.specs.Replayed.{answer_of};

use crate::parts::parts_of;
use crate::serving::is_proved;
use larch_base::Memory;
use larch_certificate::Certificate;
use larch_derive_join::inline;
use larch_session_replay::Replayed;
use std::alloc::Global;

/// The certificate of a duty over its own theory, where it is proved: the lines of its lemmas, which are earlier duties
/// of its trait, each once and in order, and then its own. No line cites a lemma as a statement of the theory.
///
/// The time is linear in the certificates of the states.
pub fn derive_duty(
    alloc: Global,
    own: &Replayed,
    earlier: &[Replayed],
) -> Result<Option<Certificate>, Memory>
    requires { AreReplayed (earlier.now ++ own.now ∷ []) }
    ensures { IfOk result (IsDerived (answer_of own.now)) }
{
    if !is_proved(&own.outcome) {
        return Ok(None);
    }
    let parts = parts_of(alloc, own, earlier)?;
    let lines = inline(alloc, &parts)?;
    Ok(Some(lines))
}
