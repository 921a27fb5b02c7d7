ghost use Rattle.std.specs.Prelude.{◌≡◌, IfErr, IfOk, OnErr, OnOk, Ok};
ghost use Rattle.larch_order.specs.Precedence.{raise, with_status};
ghost use Rattle.larch_prove_meaning.specs.Levels.{Proof};
ghost use Rattle.larch_prove_meaning.specs.Steps.{heighten, with_way};
ghost use Rattle.larch_prove_settings.specs.Settings.{AreSettingsOf, with_ranks};
ghost use Rattle.larch_prove_settings.specs.Telling.{Tells};

use crate::refusal::CommandRefusal;
use crate::settings::Settings;
use larch_base::{Memory, Way};
use larch_order::{OrderRefusal, Precedence};
use larch_raw::RawOpRef;
use larch_term::Operator;
use std::alloc::Global;
use std::rc::Rc;

impl Settings {
    /// Registers a first operator as higher than a second. It is refused with OPERATOR where a reference names no one
    /// operator; then nothing changes.
    pub fn heighten(
        &mut self,
        alloc: Global,
        upper: &RawOpRef,
        lower: &RawOpRef,
    ) -> Result<(), CommandRefusal>
        ensures registered { OnOk result ((p : Proof) → AreSettingsOf self.old p
            → heighten upper.now lower.now p ≡ Ok (with_ranks self.new.precedence.value p)) }
        ensures refused { IfErr result (λ refusal. (p : Proof) → AreSettingsOf self.old p
            → Tells (heighten upper.now lower.now p) refusal) }
        ensures rest { self.new ≡ record self.old { precedence = self.new.precedence } }
        ensures err { OnErr result (self.new ≡ self.old) }
    {
        let upper = self.refer(upper)?;
        let lower = self.refer(lower)?;
        let precedence = raise(&self.precedence, &upper, &lower)?;
        self.precedence = Rc::new(alloc, precedence)?;
        Ok(())
    }

    /// Registers a status for an operator. It is refused with OPERATOR where the reference names no one operator; then
    /// nothing changes.
    pub fn set_way(
        &mut self,
        alloc: Global,
        way: Way,
        reference: &RawOpRef,
    ) -> Result<(), CommandRefusal>
        ensures registered { OnOk result ((p : Proof) → AreSettingsOf self.old p
            → with_way way reference.now p ≡ Ok (with_ranks self.new.precedence.value p)) }
        ensures refused { IfErr result (λ refusal. (p : Proof) → AreSettingsOf self.old p
            → Tells (with_way way reference.now p) refusal) }
        ensures rest { self.new ≡ record self.old { precedence = self.new.precedence } }
        ensures err { OnErr result (self.new ≡ self.old) }
    {
        let operator = self.refer(reference)?;
        let precedence = with_status(&self.precedence, &operator, way)?;
        self.precedence = Rc::new(alloc, precedence)?;
        Ok(())
    }
}

// A precedence with a first operator raised above a second. One that it hasn't changes nothing.
fn raise(precedence: &Precedence, upper: &Operator, lower: &Operator) -> Result<Precedence, Memory>
    ensures { IfOk result (λ new. new ≡ raise precedence.now upper.now lower.now) }
{
    let mut copied = precedence.copy()?;
    if let Err(OrderRefusal::Memory) = copied.register_height(upper, lower) {
        return Err(Memory);
    }
    Ok(copied)
}

// A precedence with another status for an operator. One that it hasn't changes nothing.
fn with_status(precedence: &Precedence, operator: &Operator, way: Way) -> Result<Precedence, Memory>
    ensures { IfOk result (λ new. new ≡ with_status precedence.now operator.now way) }
{
    let mut copied = precedence.copy()?;
    if let Err(OrderRefusal::Memory) = copied.register_status(operator, way) {
        return Err(Memory);
    }
    Ok(copied)
}
