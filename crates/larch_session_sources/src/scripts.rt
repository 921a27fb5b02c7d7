ghost use Rattle.std.specs.Prelude.{◌≡◌, ◌≤◌, ◌++◌, is_some, length, true, IfOk, IfSome};
ghost use Rattle.std.specs.Option.{option_map};
ghost use Rattle.larch_base.specs.FileName.{is_file_name, is_stem};
ghost use Rattle.larch_base.specs.declared.limits.TheConstants.{MAX_FILE_BYTES};
ghost use Rattle.larch_session_sources.specs.Looked.{text_under};
ghost use Rattle.larch_session_law.specs.SessionMeaningFiles.{script_among};
ghost use Rattle.larch_session_law.specs.TraitsReading.{trait_text};

use larch_base::{Bytes, FileName, Memory, NameRefusal, Sequence, is_stem};
use larch_script_commands::Script;
use larch_session_law::from_script::read_script;
use larch_session_law::from_traits::Files;
use std::alloc::Global;

/// The script of a stem among files; one that isn't there is empty.
pub fn script_among(alloc: Global, files: &Files, stem: &[u8]) -> Result<Script, Memory>
    ensures { IfOk result (λ script. script ≡ script_among files.now stem.now) }
{
    let found = text_under(alloc, files, stem, b".lp")?;
    match found {
        Some(text) => read_script(alloc, text),
        None => Ok(Script {
            preamble: Sequence::new(alloc),
            blocks: Sequence::new(alloc),
        }),
    }
}

/// Whether there is a trait file of a stem.
pub fn has_trait(alloc: Global, files: &Files, stem: &[u8]) -> Result<bool, Memory>
    ensures { IfOk result (λ there. there ≡ is_some (trait_text files.now stem.now)) }
{
    let found = text_under(alloc, files, stem, b".lsl")?;
    Ok(found.is_some())
}

// The text of the file of a stem with an ending, where there is one.
fn text_under<'a>(
    alloc: Global,
    files: &'a Files,
    stem: &[u8],
    ending: &[u8],
) -> Result<Option<&'a [u8]>, Memory>
    requires { (is_stem stem.now ≡ true) → is_file_name (stem.now ++ ending.now) ≡ true }
    ensures text { IfOk result (λ found. option_map (λ text. text.now) found
        ≡ text_under files.now stem.now ending.now) }
    ensures short { IfOk result (λ found. IfSome found (λ text. length text.now ≤ MAX_FILE_BYTES)) }
{
    if !is_stem(stem) {
        return Ok(None);
    }
    let mut bytes = Bytes::new(alloc);
    bytes.append(stem)?;
    bytes.append(ending)?;
    match FileName::new(alloc, bytes.bytes()) {
        Ok(name) => Ok(files.get(&name)),
        Err(NameRefusal::NotAName) => unreachable!(),
        Err(NameRefusal::Memory) => Err(Memory),
    }
}
