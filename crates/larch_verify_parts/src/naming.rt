ghost use Rattle.std.specs.Prelude.{◌≡◌, All, IfSome, reverse};
ghost use Rattle.std.specs.Option.{option_map, option_and_then};
ghost use Rattle.larch_verify_meaning.specs.BoxRules.{equation_alone};
ghost use Rattle.larch_verify_meaning.specs.Context.{find_line};
ghost use Rattle.larch_verify_pool.specs.Pooled.{Pooled};
ghost use Rattle.larch_verify_history.specs.Past.{IsHappened, IsIndexed, IsEquated, IsStated, equated_in, stated_in, history_of};

use larch_verify_history::{Equated, KeptHistory, Stated};

/// The sides of the equation that a line said.
pub fn equation_of(past: &KeptHistory, line: u64) -> Option<Equated>
    requires { IsIndexed past.now.places.items (reverse past.now.events.items) }
    ensures says { (p : Pooled) → option_map (equated_in p) result
        ≡ option_and_then equation_alone (find_line (history_of p past.now) line) }
    ensures within { (p : Pooled) → All (IsHappened p) past.now.events.items → IfSome result (IsEquated p) }
{
    let Some(stated) = past.line(line) else {
        return None;
    };
    sides_of(stated)
}

/// The sides of an equation.
pub fn sides_of(stated: &Stated) -> Option<Equated>
    ensures says { (p : Pooled) → option_map (equated_in p) result ≡ equation_alone (stated_in p stated.now) }
    ensures within { (p : Pooled) → IsStated p stated.now → IfSome result (IsEquated p) }
{
    match stated {
        Stated::Equal(sides) => Some(*sides),
        Stated::Generates(_, _) => None,
        Stated::Partitions(_, _) => None,
    }
}
