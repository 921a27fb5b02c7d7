ghost use Rattle.std.specs.Prelude.{◌≡◌, ◌≤◌, [], length, IfSome, OnOk, OnErr};
ghost use Rattle.std.specs.Option.{option_map};
ghost use Rattle.larch_base.specs.declared.limits.TheConstants.{MAX_FILE_BYTES};
ghost use Rattle.larch_traits.specs.Files.{drop_file, has_file, names_of, put_file, text_of};

use larch_base::{Bytes, FileName, Memory};
use std::alloc::Global;
use std::collections::BTreeMap;
use std::collections::btree_map::Keys;
use std::marker::Model;

/// The bytes of a file, of which there aren't too many. Contracts see it as its bytes.
#[derive(Debug, Drop)]
pub struct FileText {
    bytes: Bytes,
}

impl Model for FileText {
    ghost use Rattle.std.specs.Prelude.{List, ℕ, ◌≤◌, length};
    ghost use Rattle.larch_base.specs.declared.limits.TheConstants.{MAX_FILE_BYTES};

    ghost Value = { List ℕ };

    ghost view = { λ text. text.bytes };

    ghost invariant = { λ text. length text.bytes ≤ MAX_FILE_BYTES };
}

impl FileText {
    fn bytes(&self) -> &[u8]
        ensures same { result.now ≡ self.now }
        ensures short { length result.now ≤ MAX_FILE_BYTES }
    {
        self.bytes.bytes()
    }
}

/// The files of a session, by their names. Contracts see them as names with their texts, in the byte order of the
/// names.
#[derive(Drop)]
pub struct Files {
    map: BTreeMap<FileName, FileText>,
}

impl Model for Files {
    ghost use Rattle.larch_traits.specs.Files.{Table};

    ghost Value = { Table };

    ghost view = { λ files. files.map.entries };
}

impl Files {
    /// No files. It takes no memory.
    pub fn new(alloc: Global) -> Files
        ensures { result ≡ [] }
    {
        Files {
            map: BTreeMap::new(alloc),
        }
    }

    /// How many files there are.
    pub fn len(&self) -> usize
        ensures { result ≡ length self.now }
    {
        self.map.len()
    }

    /// Whether there is a file of this name.
    pub fn contains(&self, name: &FileName) -> bool
        ensures { result ≡ has_file self.now name.now }
    {
        self.map.contains_key(name)
    }

    /// The text of the file of this name. None exactly where there is no such file.
    pub fn get(&self, name: &FileName) -> Option<&[u8]>
        ensures text { option_map (λ text. text.now) result ≡ text_of self.now name.now }
        ensures short { IfSome result (λ text. length text.now ≤ MAX_FILE_BYTES) }
    {
        match self.map.get(name) {
            Some(text) => Some(text.bytes()),
            None => None,
        }
    }

    /// The names, in byte order.
    pub fn names(&self) -> Keys<'_, FileName, FileText>
        ensures { result ≡ names_of self.now }
    {
        self.map.keys()
    }

    /// Puts a file in, new or in place of the one that has the name. Where memory runs out nothing changes.
    pub fn insert(&mut self, name: FileName, text: Bytes) -> Result<(), Memory>
        requires { length text ≤ MAX_FILE_BYTES }
        ensures ok { OnOk result (self.new ≡ put_file self.old name text) }
        ensures err { OnErr result (self.new ≡ self.old) }
    {
        self.map.insert(name, FileText { bytes: text })?;
        Ok(())
    }

    /// Takes the file of this name out, where there is one. It takes no memory.
    pub fn remove(&mut self, name: &FileName)
        ensures { self.new ≡ drop_file self.old name.now }
    {
        let _ = self.map.remove(name);
    }
}
