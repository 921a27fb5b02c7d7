ghost use Rattle.std.specs.Prelude.{◌≡◌, IfErr, OnErr, OnOk, Ok};
ghost use Rattle.larch_prove_meaning.specs.Levels.{Proof};
ghost use Rattle.larch_prove_meaning.specs.Steps.{carried_out};
ghost use Rattle.larch_prove_settings.specs.Changing.{ChangesSettings};
ghost use Rattle.larch_prove_settings.specs.Settings.{AreSettingsOf, with_settings};
ghost use Rattle.larch_prove_settings.specs.Telling.{Tells};

use crate::refusal::CommandRefusal;
use crate::settings::Settings;
use larch_script_commands::CommandKind;
use std::alloc::Global;

impl Settings {
    /// A command that changes settings alone: it declares variables, sets the rewriting limit or registers an operator.
    /// Where it is refused nothing changes.
    #[tactic(auto, using(crate::proofs::Kept::with_scope_alone, crate::proofs::Kept::with_ranks_alone, crate::proofs::Kept::with_limit_alone, crate::proofs::Kept::still_settings))]
    pub fn change(&mut self, alloc: Global, kind: &CommandKind) -> Result<(), CommandRefusal>
        requires { ChangesSettings kind.now }
        ensures changed { OnOk result ((p : Proof) → AreSettingsOf self.old p
            → carried_out kind.now p ≡ Ok (with_settings self.new p)) }
        ensures are { OnOk result ((p : Proof) → AreSettingsOf self.old p
            → AreSettingsOf self.new (with_settings self.new p)) }
        ensures refused { IfErr result (λ refusal. (p : Proof) → AreSettingsOf self.old p
            → Tells (carried_out kind.now p) refusal) }
        ensures err { OnErr result (self.new ≡ self.old) }
    {
        match kind {
            CommandKind::Declare(names, sort) => self.declare(alloc, names.as_slice(), sort),
            CommandKind::Limit(limit) => {
                self.limit = *limit;
                Ok(())
            }
            CommandKind::Height(upper, lower) => self.heighten(alloc, upper, lower),
            CommandKind::Status(way, reference) => self.set_way(alloc, *way, reference),
            _ => unreachable!(),
        }
    }
}
