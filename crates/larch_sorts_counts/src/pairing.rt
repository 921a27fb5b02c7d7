ghost use Rattle.std.specs.Prelude.{◌≡◌, ◌<◌, ◌≤◌, ℕ, false, length};
ghost use Rattle.larch_sorts_counts.specs.Count.{sum_to, together};
ghost use Rattle.larch_sorts_counts.specs.declared.count.Count.TheVariants.{Never};

use crate::count::Count;

// So many counts are looked at together: whether any two of them are paired.
const BLOCK: usize = 256;

// How often two lists of counts have something at one place, together.
pub(crate) fn count_pairs(left: &[Count], right: &[Count]) -> Count
    requires { length left.now ≡ length right.now }
    ensures { result ≡ sum_to (together left.now right.now) (length left.now) }
{
    let mut total = Count::Never;
    let mut place = 0;
    while place < left.len() {
        let end = left.len().min(place.saturating_add(BLOCK));
        total = total.plus(count_pairs_in_block(&left[place..end], &right[place..end]));
        if let Count::Often = total {
            return Count::Often;
        }
        place = end;
    }
    total
}

// The same of few counts: most have nothing in common, which is seen at once.
fn count_pairs_in_block(left: &[Count], right: &[Count]) -> Count
    requires { length left.now ≡ length right.now }
    ensures { result ≡ sum_to (together left.now right.now) (length left.now) }
{
    if !are_paired(left, right) {
        return Count::Never;
    }
    let mut total = Count::Never;
    for i in 0..left.len() {
        total = total.plus(left[i].times(right[i]));
    }
    total
}

// Whether two lists of counts have something at one place. No turn of the loop waits for another.
fn are_paired(left: &[Count], right: &[Count]) -> bool
    requires { length left.now ≡ length right.now }
    ensures { result ≡ false → (k : ℕ) → k < length left.now → together left.now right.now k ≡ Never }
{
    let mut found = false;
    for (left, right) in left.iter().zip(right) {
        found = found | (left.occurs() & right.occurs());
    }
    found
}
