ghost use Rattle.std.specs.Prelude.{◌≡◌, All, IfSome, reverse};
ghost use Rattle.std.specs.Option.{option_map};
ghost use Rattle.larch_verify_meaning.specs.Rules.{hyp_says};
ghost use Rattle.larch_verify_pool.specs.Pooled.{Pooled};
ghost use Rattle.larch_verify_history.specs.Past.{IsHappened, IsIndexed, IsEquated, equated_in, history_of};

use larch_base::numbered;
use larch_verify_history::{Equated, KeptHistory};

/// A hypothesis of an open box. It takes no memory.
pub fn judge_hyp(past: &KeptHistory, of_box: u64, number: u64) -> Option<Equated>
    requires { IsIndexed past.now.places.items (reverse past.now.events.items) }
    ensures says { (p : Pooled) → option_map (equated_in p) result ≡ hyp_says (history_of p past.now) of_box number }
    ensures within { (p : Pooled) → All (IsHappened p) past.now.events.items → IfSome result (IsEquated p) }
{
    let Some(known) = past.open_box(of_box) else {
        return None;
    };
    numbered(known.hypotheses.as_slice(), number).copied()
}
