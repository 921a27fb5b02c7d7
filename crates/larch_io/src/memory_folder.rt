ghost use Rattle.std.specs.Prelude.{◌≡◌, ◌↔◌, ◌≤◌, None, Some, Contains, [], Err, IfOk, IfErr, OnOk, OnErr, vec_len};
ghost use Rattle.larch_base.specs.declared.limits.TheConstants.{MAX_FILE_BYTES};
ghost use Rattle.larch_io.specs.Calls.{IsNextCall, no_calls};
ghost use Rattle.larch_io.specs.Folder.{IsFile, PutsFile};
ghost use Rattle.larch_io.specs.Refusal.{FileRefused, FolderFaults};
ghost use Rattle.larch_io.specs.declared.refusal.FolderRefusal.TheVariants.{Failed as folder_failed};

use crate::calls::Calls;
use crate::clean_folder::CleanFolder;
use crate::folder::Folder;
use crate::refusal::FolderRefusal;
use larch_base::{Bytes, Memory, Name};
use std::alloc::Global;
use std::marker::Model;

/// Files in memory of which some looks fail. Contracts see it as its files, each a name with its bytes, and its
/// calls.
#[derive(Drop)]
pub struct MemoryFolder {
    files: CleanFolder,
    calls: Calls,
}

impl Model for MemoryFolder {
    ghost use Rattle.larch_io.specs.Calls.{FilesInMemory};

    ghost Value = { FilesInMemory };

    ghost view = { λ folder. record { files = folder.files; calls = folder.calls } };
}

impl MemoryFolder {
    /// A folder without files. The listed looks fail, counted from 1.
    pub fn new(alloc: Global, failing: &[u64]) -> Result<MemoryFolder, Memory>
        ensures { IfOk result (λ folder. folder ≡ record { files = []; calls = no_calls failing.now 1 }) }
    {
        let calls = Calls::new(alloc, failing, 1)?;
        let files = CleanFolder::new(alloc);
        Ok(MemoryFolder { files, calls })
    }

    /// Puts a file in, in the place of the one that had its name. Where memory runs out nothing changes.
    pub fn insert(&mut self, name: Name, bytes: Bytes) -> Result<(), Memory>
        ensures ok { OnOk result (PutsFile self.old.files self.new.files name bytes) }
        ensures err { OnErr result (self.new.files ≡ self.old.files) }
        ensures calls { self.new.calls ≡ self.old.calls }
    {
        self.files.insert(name, bytes)
    }
}

impl Folder for MemoryFolder {
    ghost files = { λ folder. Some folder.files };

    ghost faults = { λ folder. folder.calls.faults };

    ghost looks = { λ _. None };

    fn read_file(&mut self, alloc: Global, name: &str) -> Result<Vec<u8>, FolderRefusal>
        ensures short { IfOk result (λ bytes. vec_len bytes ≤ MAX_FILE_BYTES) }
        ensures found { IfOk result (λ bytes. IsFile (Some self.old.files) name.now bytes.items) }
        ensures refused { IfErr result (λ refusal. FileRefused refusal (Some self.old.files) name.now) }
        ensures same { self.new.files ≡ self.old.files }
        ensures fine { OnOk result (self.new.calls.faults ≡ self.old.calls.faults) }
        ensures failed { IfErr result (λ refusal.
            FolderFaults refusal self.old.calls.faults self.new.calls.faults) }
        ensures next { IsNextCall self.old.calls self.new.calls }
        ensures fails { (result ≡ Err folder_failed) ↔ Contains self.old.calls.failing self.new.calls.made }
    {
        self.calls.begin()?;
        self.files.read_file(alloc, name)
    }
}
