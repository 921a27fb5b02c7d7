ghost use Rattle.std.specs.Prelude.{◌≡◌, ◌<◌, ◌≤◌, ◌*◌, ◌++◌, ◌∷◌, [], All, IfOk, OnOk, length, true};
ghost use Rattle.larch_base.specs.FileName.{is_file_name};
ghost use Rattle.larch_base.specs.declared.limits.TheConstants.{MAX_FILE_BYTES};
ghost use Rattle.larch_generate.specs.Generator.{generated_files, height_of, next_number, script_file, trait_file};

use crate::file::GeneratedFile;
use crate::writing::{script_text, trait_text};
use larch_base::{Bytes, FileName, Memory, NameRefusal, Sequence};
use std::alloc::Global;

/// The files that a seed makes, of so many traits: for each trait its file, and then its script.
pub fn generated_files(
    alloc: Global,
    seed: u32,
    size: u32,
) -> Result<Sequence<GeneratedFile>, Memory>
    ensures files { IfOk result (λ files. files ≡ generated_files seed size) }
    ensures count { IfOk result (λ files. length files ≡ 2 * size) }
    ensures short { IfOk result (λ files. All (λ file. length file.text ≤ MAX_FILE_BYTES) files) }
{
    let mut files = Sequence::new(alloc);
    let mut number = seed;
    for place in 0..size {
        number = next_number(number);
        push_files(alloc, &mut files, place, height_of(number))?;
    }
    Ok(files)
}

// The number behind a number.
fn next_number(number: u32) -> u32
    ensures { result ≡ next_number number }
{
    ((u64::from(number) * 1_103_515_245 + 12_345) % 2_147_483_648) as u32
}

// How high the sums of a trait with this number stand.
fn height_of(number: u32) -> u32
    ensures height { result ≡ height_of number }
    ensures low { result < 8 }
{
    number / 65_536 % 8
}

// Puts the trait at a place and its script behind other files.
fn push_files(
    alloc: Global,
    files: &mut Sequence<GeneratedFile>,
    place: u32,
    height: u32,
) -> Result<(), Memory>
    requires { height < 8 }
    ensures files { OnOk result (files.new ≡ files.old ++ trait_file place height ∷ script_file place ∷ []) }
    ensures short { OnOk result (All (λ file. length file.text ≤ MAX_FILE_BYTES)
        (trait_file place height ∷ script_file place ∷ [])) }
{
    push_trait(alloc, files, place, height)?;
    push_script(alloc, files, place)
}

// Puts the trait at a place behind other files.
fn push_trait(
    alloc: Global,
    files: &mut Sequence<GeneratedFile>,
    place: u32,
    height: u32,
) -> Result<(), Memory>
    requires { height < 8 }
    ensures file { OnOk result (files.new ≡ files.old ++ trait_file place height ∷ []) }
    ensures short { OnOk result (length (trait_file place height).text ≤ MAX_FILE_BYTES) }
{
    let text = trait_text(alloc, place, height)?;
    let name = format!(in alloc; "G{place}.lsl")?;
    push_file(alloc, files, name.as_bytes(), text)
}

// Puts the script of the trait at a place behind other files.
fn push_script(alloc: Global, files: &mut Sequence<GeneratedFile>, place: u32) -> Result<(), Memory>
    ensures { OnOk result (files.new ≡ files.old ++ script_file place ∷ []) }
{
    let text = script_text(alloc)?;
    let name = format!(in alloc; "G{place}.lp")?;
    push_file(alloc, files, name.as_bytes(), text)
}

// Puts the file with a name and a text behind others.
fn push_file(
    alloc: Global,
    files: &mut Sequence<GeneratedFile>,
    name: &[u8],
    text: Bytes,
) -> Result<(), Memory>
    requires { is_file_name name.now ≡ true }
    ensures { OnOk result (files.new ≡ files.old ++ record { name = name.now; text = text } ∷ []) }
{
    match FileName::new(alloc, name) {
        Ok(name) => files.push(GeneratedFile { name, text }),
        Err(NameRefusal::NotAName) => unreachable!(),
        Err(NameRefusal::Memory) => Err(Memory),
    }
}
