ghost use Rattle.std.specs.Prelude.{◌≡◌, IfOk};
ghost use Rattle.larch_verify_parts.specs.Apart.{all_apart};

use larch_base::Memory;
use std::alloc::Global;
use std::collections::HashMap;

/// Whether no number stands twice.
pub fn are_different(alloc: Global, numbers: &[u32]) -> Result<bool, Memory>
    ensures { IfOk result (λ b. b ≡ all_apart numbers.now) }
{
    let mut seen = HashMap::new(alloc);
    for i in 0..numbers.len() {
        let number = numbers[numbers.len() - 1 - i];
        if seen.contains_key(&number) {
            return Ok(false);
        }
        seen.insert(number, number)?;
    }
    Ok(true)
}
