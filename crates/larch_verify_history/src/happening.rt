ghost use Rattle.std.specs.Prelude.{◌≡◌, ◌∷◌, [], ◌+◌, ◌++◌, IfOk, OnOk, ℕ, List, IsTrue, Some, None, length, map, All};
ghost use Rattle.std.specs.Prelude.{if◌then◌else◌, reverse, slice_get};
ghost use Rattle.larch_term.specs.declared.statement.Theory.{Theory};
ghost use Rattle.larch_verify_meaning.specs.Events.{Event, Said, Opened};
ghost use Rattle.larch_verify_meaning.specs.Run.{done_closes};
ghost use Rattle.larch_certificate.specs.declared.line.BoxPart.{BoxPart};
ghost use Rattle.larch_verify_pool.specs.Pooled.{Pooled};
ghost use Rattle.larch_verify_history.specs.Past.{IsEquated, IsOpening, IsPast, IsStated, equated_in, history_of};
ghost use Rattle.larch_verify_history.specs.Past.{open_levels, opened_box, stated_in};
ghost use Rattle.larch_verify_history.specs.declared.event.KeptEvent.TheVariants.{Opens};

use crate::event::{EquatedList, KeptEvent, KnownBox};
use crate::past::KeptHistory;
use crate::stated::Stated;
use larch_base::{Memory, Sequence};
use larch_certificate::BoxParts;
use std::alloc::Global;

impl KeptHistory {
    /// Nothing has happened yet. The numbers are those of a theory's operators in a pool. It takes no memory.
    pub fn new(alloc: Global, own: Vec<u32>) -> KeptHistory
        ensures past { (t : Theory) (p : Pooled) → map (slice_get p.operators) own.items ≡ map Some t.operators
            → IsPast t p result }
        ensures history { (p : Pooled) → history_of p result ≡ [] }
        ensures count { length result.places.items ≡ 0 }
    {
        KeptHistory {
            own,
            events: Vec::new(alloc),
            places: Vec::new(alloc),
            levels: Vec::new(alloc),
        }
    }

    /// How many lines there were.
    pub fn count(&self) -> usize
        ensures { result ≡ length self.now.places.items }
    {
        self.places.len()
    }

    /// A line said a statement.
    #[tactic(auto, using(crate::proofs::OneMore::said))]
    pub fn say(&mut self, stated: Stated) -> Result<(), Memory>
        ensures past { OnOk result ((t : Theory) (p : Pooled) → IsPast t p self.old → IsStated p stated
            → IsPast t p self.new) }
        ensures history { OnOk result ((p : Pooled)
            → history_of p self.new ≡ Said (length self.old.places.items + 1)
            (stated_in p stated) ∷ history_of p self.old) }
        ensures count { OnOk result (length self.new.places.items ≡ length self.old.places.items + 1) }
    {
        let number = self.places.len() as u64 + 1;
        self.places.push(self.events.len())?;
        self.events.push(KeptEvent::Says(number, stated))?;
        Ok(())
    }

    /// A line opens a box with these parts. What it supposes comes later.
    pub fn begin_box(&mut self, alloc: Global, parts: BoxParts) -> Result<(), Memory>
        ensures past { OnOk result ((t : Theory) (p : Pooled) → IsPast t p self.old → IsPast t p self.new) }
        ensures history { OnOk result ((p : Pooled)
            → history_of p self.new ≡ Opened (record
            { number = length self.old.places.items + 1; parts = parts; hypotheses = [] }) ∷ history_of p self.old) }
        ensures opened { OnOk result (IsOpening (reverse self.new.events.items)) }
        ensures count { OnOk result (length self.new.places.items ≡ length self.old.places.items + 1) }
    {
        let number = self.places.len() as u64 + 1;
        self.places.push(self.events.len())?;
        let known = KnownBox {
            number,
            parts,
            hypotheses: Sequence::new(alloc),
        };
        self.events.push(KeptEvent::Opens(known))?;
        self.levels.push(self.events.len())?;
        Ok(())
    }

    /// What the box supposes that the line directly before opened.
    pub fn suppose(&mut self, hypotheses: EquatedList) -> Result<(), Memory>
        requires { IsOpening (reverse self.old.events.items) }
        ensures past { OnOk result ((t : Theory) (p : Pooled) → IsPast t p self.old → All (IsEquated p) hypotheses
            → IsPast t p self.new) }
        ensures history { OnOk result ((p : Pooled) (n : ℕ) (parts : List BoxPart) (h : List Event)
            → history_of p self.old ≡ Opened (record { number = n; parts = parts; hypotheses = [] }) ∷ h
            → history_of p self.new ≡ Opened (record
            { number = n; parts = parts; hypotheses = map (equated_in p) hypotheses }) ∷ h) }
        ensures count { OnOk result (length self.new.places.items ≡ length self.old.places.items) }
    {
        let KnownBox { number, parts, .. } = take_opening(&mut self.events);
        self.events.push(KeptEvent::Opens(KnownBox {
            number,
            parts,
            hypotheses,
        }))?;
        Ok(())
    }

    /// A done line closes the innermost box with what the line directly before says in it. `false` where no box is open
    /// or that line says nothing.
    pub fn end_box(&mut self) -> Result<bool, Memory>
        requires { open_levels (reverse self.old.events.items) ≡ reverse self.old.levels.items }
        ensures past { IfOk result (λ b. IsTrue b → (t : Theory) (p : Pooled) → IsPast t p self.old
            → IsPast t p self.new) }
        ensures history { IfOk result (λ b. (t : Theory) (p : Pooled) → IsPast t p self.old
            → done_closes (history_of p self.old) ≡ (if b then Some (history_of p self.new) else None)) }
        ensures count { IfOk result (λ b. IsTrue b → length self.new.places.items ≡ length self.old.places.items + 1) }
    {
        let Some(KeptEvent::Says(_, stated)) = self.events.pop() else {
            return Ok(false);
        };
        let Some(level) = self.levels.pop() else {
            return Ok(false);
        };
        self.events.truncate(level);
        let known = take_opening(&mut self.events);
        self.places.push(level)?;
        self.events.push(KeptEvent::Closes(known, stated))?;
        Ok(true)
    }
}

// Takes away the event of the box that was opened last, and answers the box.
fn take_opening(events: &mut Vec<KeptEvent>) -> KnownBox
    requires { IsOpening (reverse events.old.items) }
    ensures { events.old.items ≡ events.new.items ++ Opens result ∷ [] }
{
    let Some(known) = opened_box(events.pop()) else {
        unreachable!()
    };
    known
}

// The box that an event opens, if it opens one.
fn opened_box(event: Option<KeptEvent>) -> Option<KnownBox>
    ensures { result ≡ opened_box event }
{
    match event {
        Some(KeptEvent::Opens(known)) => Some(known),
        _ => None,
    }
}
