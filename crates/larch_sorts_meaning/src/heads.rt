ghost use Rattle.std.specs.Prelude.{◌≡◌};
ghost use Rattle.larch_sorts_meaning.specs.Parts.{equation_head, head_of};

use larch_base::Pos;
use larch_raw::{RawEquation, RawNode, RawTerm};

/// Where the head token of a term stands. It takes no memory.
pub fn head_of(raw: &RawTerm) -> Pos
    ensures { result ≡ head_of raw.now }
{
    match raw.node() {
        RawNode::Apply(_, _, pos) => *pos,
        RawNode::Qualified(_, _, pos) => *pos,
    }
}

/// Where the head token of an equation stands. It takes no memory.
pub fn equation_head(raw: &RawEquation) -> Pos
    ensures { result ≡ equation_head raw.now raw.now.right }
{
    match &raw.right {
        None => head_of(&raw.left),
        Some(right) => right.pos,
    }
}
