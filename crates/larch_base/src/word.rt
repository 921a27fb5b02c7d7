ghost use Rattle.std.specs.Prelude.{◌≡◌};
ghost use Rattle.larch_base.specs.Word.{is_word, goes_on};

/// Whether the bytes are a word: a letter or digit, then letters, digits, `'`, and `_` where a letter or
/// digit stands behind it.
pub fn is_word(bytes: &[u8]) -> bool
    ensures { result ≡ is_word bytes.now }
{
    match bytes {
        [first, rest @ ..] => first.is_ascii_alphanumeric() && goes_on(rest),
        [] => false,
    }
}

fn goes_on(bytes: &[u8]) -> bool
    ensures { result ≡ goes_on bytes.now }
{
    let mut rest = bytes;
    while let [byte, others @ ..] = rest {
        let fits = match *byte {
            b'_' => matches!(others, [next, ..] if next.is_ascii_alphanumeric()),
            b'\'' => true,
            byte => byte.is_ascii_alphanumeric(),
        };
        if !fits {
            return false;
        }
        rest = others;
    }
    true
}
