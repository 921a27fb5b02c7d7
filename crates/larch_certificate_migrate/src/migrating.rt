ghost use Rattle.std.specs.Prelude.{◌≡◌, true, IfErr, IfOk, Ok, Err};
ghost use Rattle.larch_certificate_migrate.specs.Migrated.{second_text};
ghost use Rattle.larch_certificate_reader.specs.Refusals.{IfForm};

use larch_base::Bytes;
use larch_certificate_printer::print_second;
use larch_certificate_reader::{FormRefusal, read_either};
use std::alloc::Global;

/// The text in the second version of the certificate whose text, in either version, this is. A text that is no
/// certificate is refused at its first line outside the grammar; `Memory` comes only out of memory.
pub fn migrate(alloc: Global, text: &[u8]) -> Result<Bytes, FormRefusal>
    ensures migrated { IfOk result (λ written. second_text text.now ≡ Ok written) }
    ensures refused { IfErr result (λ refusal. IfForm refusal (λ n. second_text text.now ≡ Err n)) }
{
    match read_either(alloc, text) {
        Ok(read) => Ok(print_second(alloc, &read.lines)?),
        Err(refusal) => Err(refusal),
    }
}
