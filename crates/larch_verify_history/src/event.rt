ghost use Rattle.std.specs.Prelude.{◌≡◌};
ghost use Rattle.larch_verify_history.specs.Past.{number_of};

use crate::stated::{Equated, Stated};
use larch_base::Sequence;
use larch_certificate::BoxParts;

/// Several equations, in order.
pub type EquatedList = Sequence<Equated>;

/// A box: the number of the line that opens it, its parts and its hypotheses.
#[derive(Drop)]
pub struct KnownBox {
    pub number: u64,
    pub parts: BoxParts,
    pub hypotheses: EquatedList,
}

/// A line said a statement, a box was opened, or one was closed with its result.
#[derive(Drop)]
pub enum KeptEvent {
    Says(u64, Stated),
    Opens(KnownBox),
    Closes(KnownBox, Stated),
}

impl KeptEvent {
    /// The number of the line, or of the line that opens the box.
    pub fn number(&self) -> u64
        ensures { result ≡ number_of self.now }
    {
        match self {
            KeptEvent::Says(number, _) => *number,
            KeptEvent::Opens(known) => known.number,
            KeptEvent::Closes(known, _) => known.number,
        }
    }
}
