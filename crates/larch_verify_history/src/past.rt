ghost use Rattle.std.specs.Prelude.{◌≡◌, All, IfSome, reverse};
ghost use Rattle.std.specs.Option.{option_map};
ghost use Rattle.larch_base.specs.ByNumber.{numbered};
ghost use Rattle.larch_verify_meaning.specs.Context.{find_line, find_open, find_closed};
ghost use Rattle.larch_verify_pool.specs.Pooled.{Pooled};
ghost use Rattle.larch_verify_history.specs.Past.{event_of, history_in, history_of, stated_in, box_in, IsHappened, IsStated};
ghost use Rattle.larch_verify_history.specs.Past.{IsBox, IsIndexed, open_levels};
ghost use Rattle.larch_verify_history.specs.Levels.{level};

use crate::event::{KeptEvent, KnownBox};
use crate::stated::Stated;
use larch_base::numbered;

/// What the lines before leave: what has happened, the oldest first; for each line the place of its event there; for
/// each open box the number of events when it had been opened, the outermost first; and the numbers of the theory's
/// operators in the pool. What stood in a closed box is gone, so a place may be that of an event of another line.
pub struct KeptHistory {
    pub own: Vec<u32>,
    pub events: Vec<KeptEvent>,
    pub places: Vec<usize>,
    pub levels: Vec<usize>,
}

// By a call, so that a proof takes the past apart in one place alone.
impl Drop for KeptHistory {
    fn drop(self) {
        let KeptHistory {
            own: _own,
            events: _events,
            places: _places,
            levels: _levels,
        } = self;
    }
}

impl KeptHistory {
    // The event of a line or box, if it is still kept.
    pub fn event(&self, number: u64) -> Option<&KeptEvent>
        ensures { option_map (λ e. e.now) result ≡ event_of self.now.places.items self.now.events.items number }
    {
        let place = self.place(number)?;
        let event = self.events.get(place)?;
        if event.number() != number {
            return None;
        }
        Some(event)
    }

    /// What the line with a number said, if it stands in an open box or in none. It takes no memory.
    pub fn line(&self, number: u64) -> Option<&Stated>
        requires { IsIndexed self.now.places.items (reverse self.now.events.items) }
        ensures line { (p : Pooled) → option_map (λ s. stated_in p s.now) result
            ≡ find_line (history_of p self.now) number }
        ensures within { (p : Pooled) → All (IsHappened p) self.now.events.items
            → IfSome result (λ s. IsStated p s.now) }
    {
        let Some(event) = self.event(number) else {
            return None;
        };
        match event {
            KeptEvent::Says(_, stated) => Some(stated),
            KeptEvent::Opens(_) => None,
            KeptEvent::Closes(_, _) => None,
        }
    }

    /// The open box with a number. It takes no memory.
    pub fn open_box(&self, number: u64) -> Option<&KnownBox>
        requires { IsIndexed self.now.places.items (reverse self.now.events.items) }
        ensures known { (p : Pooled) → option_map (λ b. box_in p b.now) result
            ≡ find_open (history_of p self.now) number }
        ensures within { (p : Pooled) → All (IsHappened p) self.now.events.items → IfSome result (λ b. IsBox p b.now) }
    {
        let Some(event) = self.event(number) else {
            return None;
        };
        match event {
            KeptEvent::Says(_, _) => None,
            KeptEvent::Opens(known) => Some(known),
            KeptEvent::Closes(_, _) => None,
        }
    }

    /// The closed box with a number, and its result, if it was opened where exactly the present boxes were open. It
    /// takes no memory.
    pub fn closed_box(&self, number: u64) -> Option<(&KnownBox, &Stated)>
        requires index { IsIndexed self.now.places.items (reverse self.now.events.items) }
        requires levels { open_levels (reverse self.now.events.items) ≡ reverse self.now.levels.items }
        ensures known { (p : Pooled) → option_map (λ c. (box_in p c.0.now, stated_in p c.1.now)) result
            ≡ find_closed (history_of p self.now) number }
        ensures within { (p : Pooled) → All (IsHappened p) self.now.events.items
            → IfSome result (λ c. IsBox p c.0.now × IsStated p c.1.now) }
    {
        let Some(place) = self.place(number) else {
            return None;
        };
        if place < self.level() {
            return None;
        }
        let Some(event) = self.event(number) else {
            return None;
        };
        match event {
            KeptEvent::Says(_, _) => None,
            KeptEvent::Opens(_) => None,
            KeptEvent::Closes(known, stated) => Some((known, stated)),
        }
    }

    // How many events there were when the innermost open box had been opened.
    fn level(&self) -> usize
        requires { open_levels (reverse self.now.events.items) ≡ reverse self.now.levels.items }
        ensures { result ≡ level (reverse self.now.events.items) }
    {
        if self.levels.is_empty() {
            return 0;
        }
        self.levels[self.levels.len() - 1]
    }

    // Where the event of a line or box was put.
    fn place(&self, number: u64) -> Option<usize>
        ensures { result ≡ numbered self.now.places.items number }
    {
        numbered(&self.places, number).copied()
    }
}
