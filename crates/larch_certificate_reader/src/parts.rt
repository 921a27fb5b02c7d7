ghost use Rattle.std.specs.Prelude.{◌≡◌};
ghost use Rattle.larch_certificate_text.specs.Parts.{with_digit, digits_from, read_number, read_ref, read_distance, ahead, behind, cut_at};
ghost use Rattle.larch_certificate_reader.specs.Views.{pair_view};

use larch_certificate_text::Here;

/// The number that the text is: digits without leading zeros.
pub fn read_number(text: &[u8]) -> Option<u64>
    ensures { result ≡ read_number text.now }
{
    let [first, further @ ..] = text else {
        return None;
    };
    if *first == b'0' && !further.is_empty() {
        return None;
    }
    digits(text)
}

fn digits(text: &[u8]) -> Option<u64>
    ensures { result ≡ digits_from 0 text.now }
{
    let mut value: u64 = 0;
    for byte in text {
        value = with_digit(value, *byte)?;
    }
    Some(value)
}

fn with_digit(value: u64, byte: u8) -> Option<u64>
    ensures { result ≡ with_digit value byte }
{
    if !byte.is_ascii_digit() {
        return None;
    }
    let tens = value.checked_mul(10)?;
    tens.checked_add(u64::from(byte - b'0'))
}

/// The line that the text names.
pub fn read_ref(here: Here, text: &[u8]) -> Option<u64>
    ensures { result ≡ read_ref here text.now }
{
    if here.relative {
        read_distance(here.line, text)
    } else {
        read_number(text)
    }
}

fn read_distance(line: u64, text: &[u8]) -> Option<u64>
    ensures { result ≡ read_distance line text.now }
{
    let [first, further @ ..] = text else {
        return None;
    };
    if *first == b'+' {
        let distance = read_number(further)?;
        ahead(line, distance)
    } else {
        let distance = read_number(text)?;
        behind(line, distance)
    }
}

fn ahead(line: u64, distance: u64) -> Option<u64>
    ensures { result ≡ ahead line distance }
{
    if distance == 0 {
        return None;
    }
    line.checked_add(distance)
}

fn behind(line: u64, distance: u64) -> Option<u64>
    ensures { result ≡ behind line distance }
{
    line.checked_sub(distance)
}

/// The text before and behind the first of these bytes.
pub fn cut_at(byte: u8, text: &[u8]) -> Option<(&[u8], &[u8])>
    ensures { pair_view result ≡ cut_at byte text.now }
{
    for i in 0..text.len() {
        if text[i] == byte {
            return Some((&text[..i], &text[i + 1..]));
        }
    }
    None
}
