ghost use Rattle.std.specs.Prelude.{◌≡◌, ◌++◌, ◌∷◌, ℕ, List, Bool, IfOk, OnOk};
ghost use Rattle.larch_models_meaning.specs.Computed.{all_up_to};
ghost use Rattle.larch_models.specs.Every.{all_lists};

use larch_base::Memory;

/// What is so of some lists of values.
pub(crate) trait Property {
    ghost so: { Self → List ℕ → Bool };

    /// Whether it is so of these values. The scratch may hold anything, before and after.
    fn check(&self, values: &[u32], scratch: &mut Vec<u32>) -> Result<bool, Memory>
        ensures { IfOk result (λ answer. answer ≡ so self.now values.now) };
}

/// Whether it is so of each list of values that begins with these and goes on with values up to the last ones. The
/// lists are tried one after another in one place, and it ends at the first of which it isn't so.
#[cycle(every_list)]
pub(crate) fn every_list<P: Property>(
    property: &P,
    lasts: &[u32],
    values: &mut Vec<u32>,
    scratch: &mut Vec<u32>,
) -> Result<bool, Memory>
    ensures answer { IfOk result (λ answer. answer
        ≡ all_lists lasts.now (λ vs. P.so property.now (values.old.items ++ vs))) }
    ensures kept { OnOk result (values.new.items ≡ values.old.items) }
{
    match lasts.split_first() {
        None => property.check(values.as_slice(), scratch),
        Some((last, further)) => every_value(property, *last, further, values, scratch),
    }
}

// The same, where the next value goes up to a last one. The greatest is tried first.
#[cycle(every_list)]
fn every_value<P: Property>(
    property: &P,
    last: u32,
    further: &[u32],
    values: &mut Vec<u32>,
    scratch: &mut Vec<u32>,
) -> Result<bool, Memory>
    ensures answer { IfOk result (λ answer. answer
        ≡ all_up_to last (λ v. all_lists further.now (λ vs. P.so property.now (values.old.items ++ v ∷ vs)))) }
    ensures kept { OnOk result (values.new.items ≡ values.old.items) }
{
    let mut value = last;
    'tries: loop {
        values.push(value)?;
        let holds = every_list(property, further, values, scratch)?;
        let _ = values.pop();
        if !holds {
            return Ok(false);
        }
        if value == 0 {
            return Ok(true);
        }
        value -= 1;
    }
}
