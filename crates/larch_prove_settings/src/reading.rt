ghost use Rattle.std.specs.Prelude.{◌≡◌, IfErr, IfOk, None, Ok};
ghost use Rattle.larch_prove_meaning.specs.Levels.{Proof};
ghost use Rattle.larch_prove_meaning.specs.Steps.{read_lone, read_sides};
ghost use Rattle.larch_prove_settings.specs.Settings.{AreSettingsOf};
ghost use Rattle.larch_prove_settings.specs.Telling.{Tells, refusal_of};

use crate::refusal::CommandRefusal;
use crate::settings::Settings;
use larch_base::Code;
use larch_raw::RawEquation;
use larch_sorts::{read_in, read_lone};
use larch_sorts_meaning::ReadRefusal;
use larch_term::{Sort, Statement, Term};
use std::alloc::Global;

/// The sides of an equation that was read.
#[derive(Drop)]
pub struct ReadSides {
    pub left: Term,
    pub right: Term,
}

impl Settings {
    /// The sides of what an equation or formula of a command reads as. It is refused with UNKNOWN-SORT, NO-READING or
    /// AMBIGUOUS.
    pub fn read_sides(&self, alloc: Global, raw: &RawEquation) -> Result<ReadSides, CommandRefusal>
        ensures read { IfOk result (λ sides. (p : Proof) → AreSettingsOf self.now p
            → read_sides p raw.now ≡ Ok (record { left = sides.left; right = sides.right })) }
        ensures refused { IfErr result (λ refusal. (p : Proof) → AreSettingsOf self.now p
            → Tells (read_sides p raw.now) refusal) }
    {
        match read_in(alloc, &self.signature, self.scope.scope(), raw) {
            Ok(Statement::Equation(left, right)) => Ok(ReadSides { left, right }),
            Ok(_) => Err(CommandRefusal::Wrong(Code::NoReading)),
            Err(refusal) => Err(refusal_of(refusal)),
        }
    }

    /// What a term of a command reads as, at a sort. It is refused with UNKNOWN-SORT, NO-READING or AMBIGUOUS.
    pub fn read_lone(
        &self,
        alloc: Global,
        sort: &Sort,
        raw: &RawEquation,
    ) -> Result<Term, CommandRefusal>
        requires { raw.now.right ≡ None }
        ensures read { IfOk result (λ term. (p : Proof) → AreSettingsOf self.now p
            → read_lone p sort.now raw.now ≡ Ok term) }
        ensures refused { IfErr result (λ refusal. (p : Proof) → AreSettingsOf self.now p
            → Tells (read_lone p sort.now raw.now) refusal) }
    {
        match read_lone(alloc, &self.signature, self.scope.scope(), raw, Some(sort)) {
            Ok(term) => Ok(term),
            Err(refusal) => Err(refusal_of(refusal)),
        }
    }
}

// The refusal of a command whose equation or term isn't read.
fn refusal_of(refusal: ReadRefusal) -> CommandRefusal
    ensures { result ≡ refusal_of refusal }
{
    match refusal {
        ReadRefusal::UnknownSort(_) => CommandRefusal::Wrong(Code::UnknownSort),
        ReadRefusal::NoReading(_) => CommandRefusal::Wrong(Code::NoReading),
        ReadRefusal::Ambiguous(_) => CommandRefusal::Wrong(Code::Ambiguous),
        ReadRefusal::Memory => CommandRefusal::Memory,
    }
}
