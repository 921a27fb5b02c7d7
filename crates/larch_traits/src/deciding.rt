ghost use Rattle.std.specs.Prelude.{IfOk};
ghost use Rattle.larch_traits.specs.Reading.{AreDeciding};

use crate::files::Files;
use crate::reading::read_files;
use larch_base::{Memory, Name, Sequence};
use larch_flat::from_flat_sources::reached;
use std::alloc::Global;

/// The stems of the trait files that decide the trait of a stem and its duties: itself and all that is reached over
/// references, those of what is implied among them, each once, in the order in which they are first visited, depth
/// first. Stems are among them of which there is no file: one that comes would decide too. All trait files are read.
pub fn deciding_stems(alloc: Global, files: &Files, stem: &Name) -> Result<Sequence<Name>, Memory>
    ensures { IfOk result (λ stems. AreDeciding files.now stem.now stems) }
{
    let sources = read_files(alloc, files)?;
    reached(alloc, &sources, stem)
}
