ghost use Rattle.std.specs.Prelude.{◌≡◌, ◌≤◌, ℕ, List, Option, IfOk, IfErr, OnOk, vec_len};
ghost use Rattle.larch_io.specs.Refusal.{FileRefused, FolderFaults};
ghost use Rattle.larch_base.specs.declared.limits.TheConstants.{MAX_FILE_BYTES};
ghost use Rattle.larch_io.specs.Folder.{FileMap, IsFile, with_look};

use crate::refusal::FolderRefusal;
use std::alloc::Global;

/// What files are read from.
pub trait Folder {
    /// Its files, each a name with its bytes, where it tells them.
    ghost files: { Self → Option FileMap };

    /// The count of its faults.
    ghost faults: { Self → ℕ };

    /// The names that were looked for, in order, where it tells them.
    ghost looks: { Self → Option (List (List ℕ)) };

    /// The bytes of the file of this name. No call changes the files.
    fn read_file(&mut self, alloc: Global, name: &str) -> Result<Vec<u8>, FolderRefusal>
        ensures short { IfOk result (λ bytes. vec_len bytes ≤ MAX_FILE_BYTES) }
        ensures found { IfOk result (λ bytes. IsFile (files self.old) name.now bytes.items) }
        ensures refused { IfErr result (λ refusal. FileRefused refusal (files self.old) name.now) }
        ensures same { files self.new ≡ files self.old }
        ensures looked { looks self.new ≡ with_look (looks self.old) name.now }
        ensures fine { OnOk result (faults self.new ≡ faults self.old) }
        ensures failed { IfErr result (λ refusal. FolderFaults refusal (faults self.old) (faults self.new)) };
}
