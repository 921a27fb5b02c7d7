ghost use Rattle.std.specs.Prelude.{◌≡◌, ◌+◌, IfErr, IfOk, OnOk, Ok, map};
ghost use Rattle.larch_prove.specs.Prepared.{ComesTo, IsPreparedFor, prepared_proof};
ghost use Rattle.larch_prove_meaning.specs.Replays.{Duty, all_prepared, prepare, told_number};
ghost use Rattle.larch_prove_beginning.specs.ProveSettingsTelling.{Tells};

use crate::outcome::Place;
use larch_base::{Code, Memory};
use larch_prove_beginning::from_prove_settings::{CommandRefusal, Settings};
use larch_script_commands::{CommandKind, RawCommand};
use std::alloc::Global;

// What a preamble sets.
pub(crate) struct Prepared {
    pub(crate) settings: Settings,
    pub(crate) checking: bool,
}

// By a call, so that a proof takes one apart in one place alone.
impl Drop for Prepared {
    fn drop(self) {
        let Prepared {
            settings: _settings,
            checking: _checking,
        } = self;
    }
}

// Carries the commands of a preamble out, in order; or the place and the code of the first that is refused.
pub(crate) fn prepare_all(
    alloc: Global,
    prepared: &mut Prepared,
    preamble: &[RawCommand],
) -> Result<Option<(Place, Code)>, Memory>
    ensures { IfOk result (λ refused. (duty : Duty) → IsPreparedFor duty prepared.old
        → ComesTo duty prepared.new refused
        (all_prepared 1 (map (λ c. c.kind) preamble.now) (prepared_proof duty prepared.old))) }
{
    for (index, command) in preamble.iter().enumerate() {
        match prepared.prepare(alloc, &command.kind) {
            Ok(()) => {}
            Err(CommandRefusal::Memory) => return Err(Memory),
            Err(CommandRefusal::Wrong(code)) => {
                return Ok(Some((Place::Preamble(number_behind(index)), code)));
            }
        }
    }
    Ok(None)
}

// The number of what stands at an index, as outcomes tell it.
fn number_behind(index: usize) -> u32
    ensures { result ≡ told_number (1 + index) }
{
    match u32::try_from(index) {
        Ok(index) => index.saturating_add(1),
        Err(_) => u32::MAX,
    }
}

impl Prepared {
    // A command of the preamble: only declarations, settings and registrations may stand there.
    fn prepare(&mut self, alloc: Global, kind: &CommandKind) -> Result<(), CommandRefusal>
        ensures prepared { OnOk result ((duty : Duty) → IsPreparedFor duty self.old
            → (prepare kind.now (prepared_proof duty self.old) ≡ Ok (prepared_proof duty self.new))
            × IsPreparedFor duty self.new) }
        ensures refused { IfErr result (λ refusal. (duty : Duty) → IsPreparedFor duty self.old
            → Tells (prepare kind.now (prepared_proof duty self.old)) refusal) }
    {
        match kind {
            CommandKind::Declare(_, _)
            | CommandKind::Limit(_)
            | CommandKind::Height(_, _)
            | CommandKind::Status(_, _) => self.settings.change(alloc, kind),
            CommandKind::BoxChecking(on) => {
                self.checking = *on;
                Ok(())
            }
            CommandKind::Bad(code) => Err(CommandRefusal::Wrong(*code)),
            _ => Err(CommandRefusal::Wrong(Code::Command)),
        }
    }
}
