ghost use Rattle.std.specs.Prelude.{◌≡◌, Ok, IfOk, OnOk, OnErr};

use larch_base::Memory;
use larch_derive::Builder;

// The number that lines gave that were written on a builder. Where memory ran out in the middle, the builder is again
// as it was kept.
pub(crate) fn undo_refused(
    builder: &mut Builder,
    kept: Builder,
    made: Result<u64, Memory>,
) -> Result<u64, Memory>
    ensures made { IfOk result (λ n. made ≡ Ok n) }
    ensures ok { OnOk result (builder.new ≡ builder.old) }
    ensures err { OnErr result (builder.new ≡ kept) }
{
    match made {
        Ok(number) => Ok(number),
        Err(refused) => {
            *builder = kept;
            Err(refused)
        }
    }
}
