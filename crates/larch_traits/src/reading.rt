ghost use Rattle.std.specs.Prelude.{◌≡◌, ◌≤◌, length, IfOk, OnOk, Some};
ghost use Rattle.larch_base.specs.Answering.{Answers};
ghost use Rattle.larch_base.specs.declared.limits.TheConstants.{MAX_FILE_BYTES};
ghost use Rattle.larch_duties_meaning.specs.TraitsItemsRefusal.{cause};
ghost use Rattle.larch_syntax.specs.Read.{trait_of};
ghost use Rattle.larch_traits.specs.Reading.{read_files, read_text, with_file};

use crate::files::Files;
use larch_base::{Code, Fault, FileName, Memory, Name};
use larch_duties_meaning::from_traits_items::TraitRefusal;
use larch_flat::from_flat_sources::Sources;
use larch_lexer::{LexRefusal, Tokens, lex_lsl};
use larch_syntax::{RawTrait, SyntaxRefusal, read_trait};
use std::alloc::Global;

/// What is read of the trait files, by their stems. It takes as long as their texts are.
pub fn read_files(alloc: Global, files: &Files) -> Result<Sources, Memory>
    ensures { IfOk result (λ sources. sources ≡ read_files files.now) }
{
    let mut sources = Sources::new(alloc);
    for name in files.names() {
        if let Some(text) = files.get(name) {
            read_file(alloc, &mut sources, name, text)?;
        }
    }
    Ok(sources)
}

// Reads the file of this name, if it is a trait file, and puts it to the others.
fn read_file(
    alloc: Global,
    sources: &mut Sources,
    name: &FileName,
    text: &[u8],
) -> Result<(), Memory>
    requires { length text.now ≤ MAX_FILE_BYTES }
    ensures { OnOk result (sources.new ≡ with_file sources.old name.now (Some text.now)) }
{
    if !name.is_trait() {
        return Ok(());
    }
    let stem = Name::new(alloc, name.stem())?;
    let read = match read_text(alloc, text) {
        Ok(raw) => Ok(raw),
        Err(TraitRefusal::Wrong(pos, code)) => Err(Fault { pos, code }),
        Err(TraitRefusal::Memory) => return Err(Memory),
    };
    sources.insert(stem, read)
}

/// The trait that a text is as it is written. `Wrong` has LEX at the first byte that begins no token; or else SYNTAX,
/// MIXED, DEEP or SIZE, as the grammar has it.
pub fn read_text(alloc: Global, text: &[u8]) -> Result<RawTrait, TraitRefusal>
    requires { length text.now ≤ MAX_FILE_BYTES }
    ensures { Answers cause result (read_text text.now) }
{
    match lex_lsl(alloc, text) {
        Ok(tokens) => read_tokens(alloc, &tokens),
        Err(LexRefusal::Lex(pos)) => Err(TraitRefusal::Wrong(pos, Code::Lex)),
        Err(LexRefusal::Memory) => Err(TraitRefusal::Memory),
    }
}

fn read_tokens(alloc: Global, tokens: &Tokens) -> Result<RawTrait, TraitRefusal>
    ensures { Answers cause result (trait_of tokens.now) }
{
    match read_trait(alloc, tokens) {
        Ok(raw) => Ok(raw),
        Err(SyntaxRefusal::Syntax(pos)) => Err(TraitRefusal::Wrong(pos, Code::Syntax)),
        Err(SyntaxRefusal::Mixed(pos)) => Err(TraitRefusal::Wrong(pos, Code::Mixed)),
        Err(SyntaxRefusal::Deep(pos)) => Err(TraitRefusal::Wrong(pos, Code::Deep)),
        Err(SyntaxRefusal::Large(pos)) => Err(TraitRefusal::Wrong(pos, Code::Size)),
        Err(SyntaxRefusal::Memory) => Err(TraitRefusal::Memory),
    }
}
