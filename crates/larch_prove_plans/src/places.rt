ghost use Rattle.std.specs.Prelude.{◌≡◌, ◌+◌, IfOk};
ghost use Rattle.larch_calculus.specs.Generation.{place_name, variables_from};

use larch_base::{Memory, Name, Sequence};
use larch_term::{Sort, Variable, Variables};
use std::alloc::Global;

// Variables of these sorts, named by their places: x1, x2, ..
pub(crate) fn variables_by_place(alloc: Global, sorts: &[Sort]) -> Result<Variables, Memory>
    ensures { IfOk result (λ vs. vs ≡ variables_from 1 sorts.now) }
{
    let mut variables = Sequence::new(alloc);
    for index in 0..sorts.len() {
        let name = place_name(alloc, index + 1)?;
        let sort = sorts[index].copy()?;
        variables.push(Variable { name, sort })?;
    }
    Ok(variables)
}

// The name of the variable at a place.
pub(crate) fn place_name(alloc: Global, place: usize) -> Result<Name, Memory>
    ensures { IfOk result (λ n. n ≡ place_name place) }
{
    let digits = place.to_string(alloc)?;
    let mut bytes = Vec::from_slice(alloc, b"x")?;
    bytes.extend_from_slice(digits.as_bytes())?;
    let name = Name::new(alloc, bytes.as_slice())?;
    Ok(name)
}
