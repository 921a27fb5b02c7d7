ghost use Rattle.std.specs.Prelude.{◌≡◌, option_map, option_and_then};
ghost use Rattle.std.specs.Option.{option_copied};
ghost use Rattle.larch_certificate_reader.specs.Views.{pair_view, parts_of, quadruple_view, triple_view};
ghost use Rattle.larch_certificate_text.specs.LineText.{split_at_bar, barred_by, behind, box_by, four_of, one_of};
ghost use Rattle.larch_certificate_text.specs.LineText.{three_of, two_of};

use crate::parts::cut_at;

/// The one part, if there is exactly one.
#[tactic(auto, using(crate::proofs::Fields::one_cut, crate::proofs::Fields::one_uncut))]
pub fn one(parts: Option<&[u8]>) -> Option<&[u8]>
    ensures { option_copied result ≡ one_of (parts_of parts.entry) }
{
    let parts = parts?;
    match cut_at(b' ', parts) {
        Some(_) => None,
        None => Some(parts),
    }
}

/// The two parts, if there are exactly two.
#[tactic(auto, using(crate::proofs::Fields::two_cut, crate::proofs::Fields::two_uncut))]
pub fn two(parts: Option<&[u8]>) -> Option<(&[u8], &[u8])>
    ensures { pair_view result ≡ two_of (parts_of parts.entry) }
{
    let parts = parts?;
    match cut_at(b' ', parts) {
        Some((first, rest)) => with_first(first, one(Some(rest))),
        None => None,
    }
}

fn with_first<'a>(first: &'a [u8], second: Option<&'a [u8]>) -> Option<(&'a [u8], &'a [u8])>
    ensures { pair_view result ≡ option_map (behind first.now) (option_copied second.entry) }
{
    let second = second?;
    Some((first, second))
}

/// The three parts, if there are exactly three.
#[tactic(auto, using(crate::proofs::Fields::three_cut, crate::proofs::Fields::three_uncut))]
pub fn three(parts: Option<&[u8]>) -> Option<(&[u8], (&[u8], &[u8]))>
    ensures { triple_view result ≡ three_of (parts_of parts.entry) }
{
    let parts = parts?;
    match cut_at(b' ', parts) {
        Some((first, rest)) => before_two(first, two(Some(rest))),
        None => None,
    }
}

fn before_two<'a>(
    first: &'a [u8],
    further: Option<(&'a [u8], &'a [u8])>,
) -> Option<(&'a [u8], (&'a [u8], &'a [u8]))>
    ensures { triple_view result ≡ option_map (behind first.now) (pair_view further.entry) }
{
    let further = further?;
    Some((first, further))
}

/// The four parts, if there are exactly four.
#[tactic(auto, using(crate::proofs::Fields::four_cut, crate::proofs::Fields::four_uncut))]
pub fn four(parts: Option<&[u8]>) -> Option<(&[u8], (&[u8], (&[u8], &[u8])))>
    ensures { quadruple_view result ≡ four_of (parts_of parts.entry) }
{
    let parts = parts?;
    match cut_at(b' ', parts) {
        Some((first, rest)) => before_three(first, three(Some(rest))),
        None => None,
    }
}

fn before_three<'a>(
    first: &'a [u8],
    further: Option<(&'a [u8], (&'a [u8], &'a [u8]))>,
) -> Option<(&'a [u8], (&'a [u8], (&'a [u8], &'a [u8])))>
    ensures { quadruple_view result ≡ option_map (behind first.now) (triple_view further.entry) }
{
    let further = further?;
    Some((first, further))
}

/// Two parts with a bar between them.
#[tactic(auto, using(crate::proofs::Fields::barred_cut, crate::proofs::Fields::barred_uncut))]
pub fn split_at_bar(parts: Option<&[u8]>) -> Option<(&[u8], &[u8])>
    ensures { pair_view result ≡ split_at_bar (parts_of parts.entry) }
{
    let parts = parts?;
    match cut_at(b' ', parts) {
        Some((first, rest)) => behind_bar(first, two(Some(rest))),
        None => None,
    }
}

fn behind_bar<'a>(
    first: &'a [u8],
    further: Option<(&'a [u8], &'a [u8])>,
) -> Option<(&'a [u8], &'a [u8])>
    ensures { pair_view result ≡ option_and_then (barred_by first.now) (pair_view further.entry) }
{
    let (bar, second) = further?;
    if bar == b"|".as_slice() {
        Some((first, second))
    } else {
        None
    }
}

/// The lists of a box, with the bar or without.
pub fn box_by(relative: bool, parts: Option<&[u8]>) -> Option<(&[u8], &[u8])>
    ensures { pair_view result ≡ box_by relative (parts_of parts.entry) }
{
    if relative {
        two(parts)
    } else {
        split_at_bar(parts)
    }
}
