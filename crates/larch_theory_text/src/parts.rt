use larch_base::Memory;
use std::alloc::Global;

/// What a text has between bytes of a kind.
pub fn parts_of(alloc: Global, text: &[u8], between: u8) -> Result<Vec<&[u8]>, Memory> {
    let mut parts = Vec::new(alloc);
    for part in text.split(|byte| *byte == between) {
        parts.push(part)?;
    }
    Ok(parts)
}
