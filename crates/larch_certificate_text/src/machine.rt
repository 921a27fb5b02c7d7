use crate::stack::Stack;
use crate::text::Text;
use larch_certificate::from_base::Sequence;
use larch_certificate::{Coded, Symbol};

/// A symbol with the arguments that were read, while others are awaited.
#[derive(Drop)]
pub struct Frame {
    pub symbol: Symbol,
    pub done: Sequence<Coded>,
}

/// A reader of a term that takes byte by byte: what waits, the bytes of a leaf, or the term that was closed last.
#[derive(Drop)]
pub struct Machine {
    pub stack: Stack<Frame>,
    pub atom: Text,
    pub closed: Option<Coded>,
}
