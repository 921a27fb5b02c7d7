ghost use Rattle.std.specs.Prelude.{◌≡◌, ◌++◌, IfOk};

use larch_base::{Memory, Sequence};

// Things with more behind them.
pub(crate) fn append<T: Drop>(things: Sequence<T>, more: Sequence<T>) -> Result<Sequence<T>, Memory>
    ensures { IfOk result (λ all. all ≡ things ++ more) }
{
    let mut items = things.into_vec();
    let mut more = more.into_vec();
    items.append(&mut more)?;
    Ok(Sequence::from_vec(items))
}
