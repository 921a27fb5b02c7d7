ghost use Rattle.std.specs.Prelude.{◌≡◌, IsTrue, Some, None, if◌then◌else◌, nat_le};
ghost use Rattle.std.specs.Char.{is_ascii_digit};
ghost use Rattle.std.specs.List.{list_all};
ghost use Rattle.larch_base.specs.Number.{is_number, read_number, value_of, with_digit};

/// The number that a text is, if it is one: digits without a zero in front of others, and at most `most`.
pub fn read_number(text: &[u8], most: u32) -> Option<u32>
    ensures { result ≡ read_number most text.now }
{
    if !is_number(text) {
        return None;
    }
    number_up_to(text, most)
}

// The number that the digits spell, where it is at most so large.
fn number_up_to(digits: &[u8], most: u32) -> Option<u32>
    requires { IsTrue (list_all is_ascii_digit digits.now) }
    ensures { result ≡ (if nat_le (value_of digits.now) most then Some (value_of digits.now) else None) }
{
    let mut number = 0;
    for digit in digits {
        match with_digit(number, *digit, most) {
            Some(more) => number = more,
            None => return None,
        }
    }
    Some(number)
}

// A number with one digit more, where that is at most so large.
fn with_digit(number: u32, digit: u8, most: u32) -> Option<u32>
    requires { IsTrue (is_ascii_digit digit) }
    ensures { result ≡ (if nat_le (with_digit number digit) most then Some (with_digit number digit) else None) }
{
    let more = 10 * u64::from(number) + u64::from(digit - b'0');
    if more <= u64::from(most) {
        Some(more as u32)
    } else {
        None
    }
}

// Whether these are digits, of which the first is 0 only where it stands alone.
fn is_number(bytes: &[u8]) -> bool
    ensures { result ≡ is_number bytes.now }
{
    match bytes {
        [] => false,
        [digit, digits @ ..] => are_digits(bytes) && (*digit != b'0' || digits.is_empty()),
    }
}

fn are_digits(bytes: &[u8]) -> bool
    ensures { result ≡ list_all is_ascii_digit bytes.now }
{
    bytes.iter().all(|byte| byte.is_ascii_digit())
}
