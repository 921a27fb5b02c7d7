ghost use Rattle.std.specs.Prelude.{◌≡◌, ◌≤◌, [], None, Some, vec_len, IfOk, IfErr, OnOk, OnErr};
ghost use Rattle.std.specs.Option.{option_copied};
ghost use Rattle.larch_io.specs.Refusal.{FileRefused, FolderFaults};
ghost use Rattle.larch_io.specs.Folder.{IsFile, PutsFile, file_of};

use crate::folder::Folder;
use crate::refusal::FolderRefusal;
use larch_base::limits::MAX_FILE_BYTES;
use larch_base::{Bytes, Memory, Name};
use std::alloc::Global;
use std::collections::BTreeMap;
use std::marker::Model;

/// Files in memory that are read without a fault. Contracts see it as its files, each a name with its bytes.
#[derive(Drop)]
pub struct CleanFolder {
    files: BTreeMap<Name, Bytes>,
}

impl Model for CleanFolder {
    ghost use Rattle.larch_io.specs.Folder.{FileMap};

    ghost Value = { FileMap };

    ghost view = { λ folder. folder.files.entries };
}

impl CleanFolder {
    /// A folder without files. It takes no memory.
    pub fn new(alloc: Global) -> CleanFolder
        ensures { result ≡ [] }
    {
        CleanFolder {
            files: BTreeMap::new(alloc),
        }
    }

    /// Puts a file in, in the place of the one that had its name. Where memory runs out nothing changes.
    pub fn insert(&mut self, name: Name, bytes: Bytes) -> Result<(), Memory>
        ensures ok { OnOk result (PutsFile self.old self.new name bytes) }
        ensures err { OnErr result (self.new ≡ self.old) }
    {
        self.files.insert(name, bytes)?;
        Ok(())
    }

    // The bytes of the file of this name.
    fn find(&self, name: &Name) -> Option<&Bytes>
        ensures { option_copied result ≡ file_of self.now name.now }
    {
        self.files.get(name)
    }
}

impl Folder for CleanFolder {
    ghost files = { λ folder. Some folder };

    ghost faults = { λ _. 0 };

    ghost looks = { λ _. None };

    fn read_file(&mut self, alloc: Global, name: &str) -> Result<Vec<u8>, FolderRefusal> {
        let name = Name::new(alloc, name.as_bytes())?;
        let Some(bytes) = self.find(&name) else {
            return Err(FolderRefusal::NotThere);
        };
        if bytes.bytes().len() > MAX_FILE_BYTES as usize {
            return Err(FolderRefusal::TooLong);
        }
        copy_bytes(alloc, bytes.bytes())
    }
}

fn copy_bytes(alloc: Global, bytes: &[u8]) -> Result<Vec<u8>, FolderRefusal>
    ensures ok { IfOk result (λ copy. copy.items ≡ bytes.now) }
    ensures err { IfErr result (λ refusal. refusal ≡ FolderRefusal.Memory) }
{
    Vec::from_slice(alloc, bytes).map_err(|_| FolderRefusal::Memory)
}
