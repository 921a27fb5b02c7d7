//! What is asked about files.
ghost use Rattle.std.specs.Prelude.{◌≡◌, if◌then◌else◌, IfOk, IsErrOf, false, map, true, Some, None};
ghost use Rattle.std.specs.List.{list_all};
ghost use Rattle.larch_base.specs.FileName.{is_file_name};
ghost use Rattle.larch_words.specs.Call.{are_files, on_files};

use crate::call::{Call, FileNames, Question};
use larch_base::{FileName, Memory, NameRefusal, Sequence};
use std::alloc::Global;

// What is asked about the files that words name, where they are names of files.
pub(crate) fn on_files(alloc: Global, question: Question, words: &[&str]) -> Result<Call, Memory>
    ensures { IfOk result (λ call. call ≡ on_files question (map (λ word. word.now) words.now)) }
{
    match files(alloc, words) {
        Ok(Some(names)) => Ok(Call::OnFiles(question, names)),
        Ok(None) => Ok(Call::Nothing),
        Err(memory) => Err(memory),
    }
}

// The names of files that words are, if all of them are and there is one.
fn files(alloc: Global, words: &[&str]) -> Result<Option<FileNames>, Memory>
    ensures { IfOk result (λ names. names
        ≡ (if are_files (map (λ word. word.now) words.now) then Some (map (λ word. word.now) words.now) else None)) }
{
    if words.is_empty() {
        return Ok(None);
    }
    match file_names(alloc, words) {
        Ok(names) => Ok(Some(names)),
        Err(NameRefusal::NotAName) => Ok(None),
        Err(NameRefusal::Memory) => Err(Memory),
    }
}

// The names of files that words are, if all of them are.
fn file_names(alloc: Global, words: &[&str]) -> Result<FileNames, NameRefusal>
    ensures ok { IfOk result (λ names. names ≡ map (λ word. word.now) words.now) }
    ensures form { IfOk result (λ _. list_all is_file_name (map (λ word. word.now) words.now) ≡ true) }
    ensures other_form { IsErrOf result NameRefusal.NotAName
        → list_all is_file_name (map (λ word. word.now) words.now) ≡ false }
{
    let mut names = Sequence::new(alloc);
    for word in words {
        let name = FileName::new(alloc, word.as_bytes())?;
        names.push(name)?;
    }
    Ok(names)
}
