ghost use Rattle.std.specs.Prelude.{◌≡◌, ◌∷◌, [], decimal, IfNone, IfSome, bytes_eq};
ghost use Rattle.larch_certificate_text.specs.ListText.{split_at};
ghost use Rattle.larch_certificate_text.specs.Parts.{digits_from, read_number, with_digit};
ghost use Rattle.larch_models.specs.Reading.{IsCut};

/// The text before and behind the first of these bytes.
#[tactic(auto, using(crate::proofs::Cuts::cut_found, crate::proofs::Cuts::cut_missing))]
pub(crate) fn cut(byte: u8, text: &[u8]) -> Option<(&[u8], &[u8])>
    ensures some { IfSome result (λ parts. IsCut byte text.now parts.0.now parts.1.now) }
    ensures none { IfNone result (split_at byte text.now ≡ text.now ∷ []) }
{
    for i in 0..text.len() {
        if text[i] == byte {
            return Some((&text[..i], &text[i + 1..]));
        }
    }
    None
}

/// The number that the text is: digits without leading zeros.
pub(crate) fn read_number(text: &[u8]) -> Option<u64>
    ensures { result ≡ read_number text.now }
{
    let [first, further @ ..] = text else {
        return None;
    };
    if *first == b'0' && !further.is_empty() {
        return None;
    }
    digits(text)
}

fn digits(text: &[u8]) -> Option<u64>
    ensures { result ≡ digits_from 0 text.now }
{
    let mut value: u64 = 0;
    for byte in text {
        value = with_digit(value, *byte)?;
    }
    Some(value)
}

fn with_digit(value: u64, byte: u8) -> Option<u64>
    ensures { result ≡ with_digit value byte }
{
    if !byte.is_ascii_digit() {
        return None;
    }
    let tens = value.checked_mul(10)?;
    tens.checked_add(u64::from(byte - b'0'))
}

/// Whether the text is a number as it is written.
#[tactic(auto, using(crate::proofs::Cuts::number_test, crate::proofs::Cuts::number_test_none))]
pub(crate) fn is_number(text: &[u8], number: u64) -> bool
    ensures { result ≡ bytes_eq text.now (decimal number) }
{
    match read_number(text) {
        Some(found) => found == number,
        None => false,
    }
}
