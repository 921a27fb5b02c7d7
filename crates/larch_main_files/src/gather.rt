//! The files of names, and a certificate or a model, taken from a folder.
ghost use Rattle.std.specs.Prelude.{◌≡◌, ◌≤◌, ◌∷◌, ℕ, IfErr, IfOk, IfSome, OnOk, false, true, vec_len};
ghost use Rattle.std.specs.List.{list_all};
ghost use Rattle.larch_base.specs.FileName.{is_file_name};
ghost use Rattle.larch_base.specs.declared.limits.TheConstants.{MAX_FILE_BYTES};
ghost use Rattle.larch_io.specs.Folder.{IsFile, with_look};
ghost use Rattle.larch_io.specs.Refusal.{FolderFaults};
ghost use Rattle.larch_main_files.specs.Look.{ComesTo, EvidenceFor, Fetches, GatherFaults, IsRefusalFor, Looks, found_of};
ghost use Rattle.larch_main_files.specs.Turns.{LookInTurn, LooksOnce, looks_for};
ghost use Rattle.larch_traits.specs.Files.{has_file, put_file};

use larch_base::limits::MAX_FILES;
use larch_base::{Bytes, FileName, Memory, Name, NameRefusal};
use larch_io::{Folder, FolderRefusal};
use larch_traits::Files;
use larch_words::EvidenceName;
use std::alloc::Global;

/// What is looked at to verify a certificate or to try a model: its text, and the files among which the trait is.
#[derive(Drop)]
pub struct Evidence {
    pub text: Bytes,
    pub files: Files,
}

/// Why what words name isn't all gathered.
#[derive(Debug, Drop)]
pub enum GatherRefusal {
    /// There is no file of this name.
    Absent(Name),
    /// A file has too many bytes, or there are too many files.
    TooLarge,
    /// The folder failed.
    ReadFault,
    /// Out of memory.
    Memory,
}

impl From<Memory> for GatherRefusal {
    ghost use Rattle.larch_main_files.specs.declared.gather.GatherRefusal.TheVariants.{Memory as out_of_memory};

    ghost from_gives = { λ _ refusal. refusal ≡ out_of_memory };

    fn from(_memory: Memory) -> GatherRefusal {
        GatherRefusal::Memory
    }
}

/// Looks for the files of these names in the folder, in their order, until one isn't there or passes a limit, which is
/// refused. A name that comes again isn't looked at again.
pub fn gather<F: Folder>(
    alloc: Global,
    names: &[FileName],
    folder: &mut F,
) -> Result<Files, GatherRefusal>
    requires { list_all is_file_name names.now ≡ true }
    ensures found { IfSome (found_of result) (λ found. ComesTo (F.files folder.old) names.now found) }
    ensures same { F.files folder.new ≡ F.files folder.old }
    ensures fine { OnOk result (F.faults folder.new ≡ F.faults folder.old) }
    ensures faults { IfErr result (λ refusal. GatherFaults refusal (F.faults folder.old) (F.faults folder.new)) }
    ensures looks { LookInTurn (F.files folder.old) (looks_for names.now) (F.looks folder.old) (F.looks folder.new) }
{
    let mut files = Files::new(alloc);
    for name in names {
        match look(alloc, &mut files, name, folder) {
            Ok(()) => {}
            Err(refusal) => return Err(refusal_for(alloc, name.bytes(), refusal)),
        }
    }
    Ok(files)
}

/// Looks for a certificate or a model and then for the files of these names, until one isn't there or passes a limit,
/// which is refused.
pub fn gather_evidence<F: Folder>(
    alloc: Global,
    evidence: &EvidenceName,
    names: &[FileName],
    folder: &mut F,
) -> Result<Evidence, GatherRefusal>
    requires names { list_all is_file_name names.now ≡ true }
    requires other { is_file_name evidence.now ≡ false }
    ensures found { IfSome (found_of result) (λ found.
        EvidenceFor (F.files folder.old) evidence.now names.now found) }
    ensures same { F.files folder.new ≡ F.files folder.old }
    ensures fine { OnOk result (F.faults folder.new ≡ F.faults folder.old) }
    ensures faults { IfErr result (λ refusal. GatherFaults refusal (F.faults folder.old) (F.faults folder.new)) }
    ensures looks { LookInTurn (F.files folder.old) (evidence.now ∷ looks_for names.now)
        (F.looks folder.old) (F.looks folder.new) }
{
    let text = fetch(alloc, evidence, folder)?;
    let files = gather(alloc, names, folder)?;
    Ok(Evidence { text, files })
}

// Looks for a certificate or a model.
fn fetch<F: Folder>(
    alloc: Global,
    name: &EvidenceName,
    folder: &mut F,
) -> Result<Bytes, GatherRefusal>
    ensures found { IfSome (found_of result) (λ found. Fetches (F.files folder.old) name.now found) }
    ensures same { F.files folder.new ≡ F.files folder.old }
    ensures fine { OnOk result (F.faults folder.new ≡ F.faults folder.old) }
    ensures faults { IfErr result (λ refusal. GatherFaults refusal (F.faults folder.old) (F.faults folder.new)) }
    ensures file { IfOk result (λ bytes. IsFile (F.files folder.old) name.now bytes) }
    ensures looked { F.looks folder.new ≡ with_look (F.looks folder.old) name.now }
{
    match folder.read_file(alloc, name.text()) {
        Ok(bytes) => Ok(Bytes::from_vec(bytes)),
        Err(refusal) => Err(refusal_for(alloc, name.text().as_bytes(), refusal)),
    }
}

// The refusal for this name, where the folder refused to give its file.
fn refusal_for(alloc: Global, name: &[u8], refusal: FolderRefusal) -> GatherRefusal
    ensures refusal { IsRefusalFor name.now refusal result }
    ensures faults { (before now : ℕ) → FolderFaults refusal before now → GatherFaults result before now }
{
    match refusal {
        FolderRefusal::NotThere => absence(alloc, name),
        FolderRefusal::TooLong => GatherRefusal::TooLarge,
        FolderRefusal::Failed => GatherRefusal::ReadFault,
        FolderRefusal::Memory => GatherRefusal::Memory,
    }
}

// The refusal that no file has this name.
fn absence(alloc: Global, name: &[u8]) -> GatherRefusal
    ensures refusal { IsRefusalFor name.now FolderRefusal.NotThere result }
    ensures faults { (before now : ℕ) → now ≡ before → GatherFaults result before now }
{
    match Name::new(alloc, name) {
        Ok(name) => GatherRefusal::Absent(name),
        Err(_) => GatherRefusal::Memory,
    }
}

// Puts the file of a name in, unless it is there already. What has too many bytes and what is one file too many is
// too long.
fn look<F: Folder>(
    alloc: Global,
    files: &mut Files,
    name: &FileName,
    folder: &mut F,
) -> Result<(), FolderRefusal>
    requires { is_file_name name.now ≡ true }
    ensures looks { Looks (F.files folder.old) files.old files.new name.now result }
    ensures same { F.files folder.new ≡ F.files folder.old }
    ensures fine { OnOk result (F.faults folder.new ≡ F.faults folder.old) }
    ensures faults { IfErr result (λ refusal. FolderFaults refusal (F.faults folder.old) (F.faults folder.new)) }
    ensures looked { LooksOnce (has_file files.old name.now) (F.looks folder.old) (F.looks folder.new) name.now }
{
    if files.contains(name) {
        return Ok(());
    }
    let text = text_of(name);
    let bytes = folder.read_file(alloc, text)?;
    if MAX_FILES as usize <= files.len() {
        return Err(FolderRefusal::TooLong);
    }
    put(alloc, files, name, bytes)?;
    Ok(())
}

// Puts a file in.
fn put(
    alloc: Global,
    files: &mut Files,
    name: &FileName,
    bytes: Vec<u8>,
) -> Result<(), FolderRefusal>
    requires form { is_file_name name.now ≡ true }
    requires short { vec_len bytes ≤ MAX_FILE_BYTES }
    ensures ok { OnOk result (files.new ≡ put_file files.old name.now bytes.items) }
    ensures memory { IfErr result (λ refusal. refusal ≡ FolderRefusal.Memory) }
{
    match FileName::new(alloc, name.bytes()) {
        Ok(name) => {
            files.insert(name, Bytes::from_vec(bytes))?;
            Ok(())
        }
        Err(NameRefusal::NotAName) => unreachable!(),
        Err(NameRefusal::Memory) => Err(FolderRefusal::Memory),
    }
}

// The name as a text.
fn text_of(name: &FileName) -> &str
    requires { is_file_name name.now ≡ true }
    ensures { result.now ≡ name.now }
{
    match str::from_utf8(name.bytes()) {
        Ok(text) => text,
        Err(_) => unreachable!(),
    }
}
