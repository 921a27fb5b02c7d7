ghost use Rattle.std.specs.Prelude.{◌≡◌, option_copied};
ghost use Rattle.larch_base.specs.ByNumber.{numbered};

/// The thing with a number, counted from 1, if there is one. It takes no memory.
pub fn numbered<T>(items: &[T], number: u64) -> Option<&T>
    ensures { option_copied result ≡ numbered items.now number }
{
    if number == 0 {
        return None;
    }
    items.get(number as usize - 1)
}
