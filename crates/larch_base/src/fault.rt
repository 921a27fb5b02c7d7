use crate::code::Code;
use crate::position::Pos;

/// What is wrong with a text, and where: the answer of a definition that refuses.
#[derive(Clone, Copy, Debug, PartialEq, Eq)]
pub struct Fault {
    pub pos: Pos,
    pub code: Code,
}
