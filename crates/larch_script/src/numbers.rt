ghost use Rattle.std.specs.Prelude.{◌≡◌};
ghost use Rattle.larch_script.specs.Numbers.{number_of, with_digit, with_digits};

/// The number that the text is: at most six digits, without leading zeros.
pub(crate) fn number_of(text: &[u8]) -> Option<u32>
    ensures { result ≡ number_of text.now }
{
    let [first, further @ ..] = text else {
        return None;
    };
    if *first == b'0' && !further.is_empty() {
        return None;
    }
    digits(text)
}

fn digits(text: &[u8]) -> Option<u32>
    ensures { result ≡ with_digits 0 text.now }
{
    let mut value: u32 = 0;
    for byte in text {
        value = with_digit(value, *byte)?;
    }
    Some(value)
}

fn with_digit(value: u32, byte: u8) -> Option<u32>
    ensures { result ≡ with_digit value byte }
{
    if !byte.is_ascii_digit() {
        return None;
    }
    let more = value.checked_mul(10)?.checked_add(u32::from(byte - b'0'))?;
    if more < 1_000_000 { Some(more) } else { None }
}
