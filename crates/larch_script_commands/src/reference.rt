ghost use Rattle.std.specs.Prelude.{◌≡◌, ◌↔◌, IsTrue, option_map};
ghost use Rattle.larch_script_commands.specs.Bare.{bare_form, bare_reference, bare_signature};

use crate::equation::{same_word, same_words};
use larch_raw::{RawForm, RawOpRef, RawSig};

fn same_form(left: &RawForm, right: &RawForm) -> bool
    ensures { IsTrue result ↔ (bare_form left.now ≡ bare_form right.now) }
{
    left.name == right.name && left.word == right.word && left.markers == right.markers
}

fn same_signature(left: &Option<RawSig>, right: &Option<RawSig>) -> bool
    ensures { IsTrue result ↔ (option_map bare_signature left.now ≡ option_map bare_signature right.now) }
{
    match (left, right) {
        (Some(signature), Some(other)) => {
            same_words(signature.domain.as_slice(), other.domain.as_slice())
                && same_word(&signature.range, &other.range)
        }
        (None, None) => true,
        _ => false,
    }
}

/// Whether two references to operators are equal.
pub(crate) fn same_reference(left: &RawOpRef, right: &RawOpRef) -> bool
    ensures { IsTrue result ↔ (bare_reference left.now ≡ bare_reference right.now) }
{
    same_form(&left.form, &right.form) && same_signature(&left.sig, &right.sig)
}
