ghost use Rattle.std.specs.Prelude.{◌≡◌, ◌≤◌, None, vec_len, IfOk};
ghost use Rattle.larch_base.specs.declared.limits.TheConstants.{MAX_FILE_BYTES};

use crate::folder::Folder;
use crate::refusal::FolderRefusal;
use larch_base::limits::MAX_FILE_BYTES;
use std::alloc::Global;
use std::fs::File;
use std::io::{Error, ErrorKind, Read};
use std::marker::Model;

/// The files of the folder that the program is run in. Contracts see it as the count of its faults.
#[derive(Drop)]
pub struct WorkingFolder<'a> {
    rt: &'a HostRuntime,
    faults: u64,
}

impl<'a> Model for WorkingFolder<'a> {
    ghost use Rattle.std.specs.Prelude.{ℕ};

    ghost Value = { ℕ };

    ghost view = { λ folder. folder.faults };
}

impl<'a> WorkingFolder<'a> {
    /// The working folder, without a fault yet. The runtime is what `main` and tests are handed.
    pub fn new(rt: &'a HostRuntime) -> WorkingFolder<'a>
        ensures { result ≡ 0 }
    {
        WorkingFolder { rt, faults: 0 }
    }
}

impl<'a> Folder for WorkingFolder<'a> {
    ghost files = { λ _. None };

    ghost faults = { λ folder. folder };

    ghost looks = { λ _. None };

    fn read_file(&mut self, alloc: Global, name: &str) -> Result<Vec<u8>, FolderRefusal> {
        match read_short(self.rt, alloc, name) {
            Err(FolderRefusal::Failed) => {
                self.faults = self.faults.saturating_add(1);
                Err(FolderRefusal::Failed)
            }
            answer => answer,
        }
    }
}

// The bytes of a file, if they aren't too many. No more of them are read than are needed to tell that.
fn read_short(rt: &HostRuntime, alloc: Global, name: &str) -> Result<Vec<u8>, FolderRefusal>
    ensures { IfOk result (λ bytes. vec_len bytes ≤ MAX_FILE_BYTES) }
{
    let file = File::open(rt, name).map_err(refusal_of)?;
    let mut bytes = Vec::new(alloc);
    file.take(MAX_FILE_BYTES as u64 + 1)
        .read_to_end(&mut bytes)
        .map_err(refusal_of)?;
    if bytes.len() > MAX_FILE_BYTES as usize {
        return Err(FolderRefusal::TooLong);
    }
    Ok(bytes)
}

// What an error says of the file. Where a part of a path is no folder, or a name is longer than one can be, nothing is
// there.
fn refusal_of(error: Error) -> FolderRefusal {
    match error.kind() {
        ErrorKind::NotFound | ErrorKind::NotADirectory | ErrorKind::InvalidFilename => {
            FolderRefusal::NotThere
        }
        ErrorKind::OutOfMemory => FolderRefusal::Memory,
        _ => FolderRefusal::Failed,
    }
}
