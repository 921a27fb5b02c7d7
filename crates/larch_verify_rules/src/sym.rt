ghost use Rattle.std.specs.Prelude.{◌≡◌, All, IfSome, reverse};
ghost use Rattle.std.specs.Option.{option_map};
ghost use Rattle.larch_verify_meaning.specs.Rules.{sym_says};
ghost use Rattle.larch_verify_pool.specs.Pooled.{Pooled};
ghost use Rattle.larch_verify_history.specs.Past.{IsHappened, IsIndexed, IsEquated, equated_in, history_of};

use larch_verify_history::{Equated, KeptHistory};
use larch_verify_parts::equation_of;

/// The equation of a line with its sides exchanged. It takes no memory.
pub fn judge_sym(past: &KeptHistory, line: u64) -> Option<Equated>
    requires { IsIndexed past.now.places.items (reverse past.now.events.items) }
    ensures says { (p : Pooled) → option_map (equated_in p) result ≡ sym_says (history_of p past.now) line }
    ensures within { (p : Pooled) → All (IsHappened p) past.now.events.items → IfSome result (IsEquated p) }
{
    let Some(sides) = equation_of(past, line) else {
        return None;
    };
    Some(Equated {
        left: sides.right,
        right: sides.left,
    })
}
