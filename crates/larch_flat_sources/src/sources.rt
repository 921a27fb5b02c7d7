ghost use Rattle.std.specs.Prelude.{◌≡◌, ℕ, List, ◌<◌, [], length, cond, bytes_eq, Some, is_some, IfSome, OnOk, OnErr};
ghost use Rattle.std.specs.List.{position};
ghost use Rattle.larch_flat_meaning.specs.Files.{is_there};
ghost use Rattle.larch_flat_sources.specs.Sources.{AreApart, files_in, name_at, names_in, put_text};

use indexmap::IndexMap;
use larch_base::{Fault, Memory, Name};
use larch_raw::RawTrait;
use std::alloc::Global;
use std::marker::Model;

/// What the texts of trait files say: of each name a trait as it is written, or what is wrong with the text. Each file
/// has a number, in the order in which the names came. Contracts see it as the list of names with what they say.
#[derive(Drop)]
pub struct Sources {
    texts: IndexMap<Name, Result<RawTrait, Fault>>,
}

impl Model for Sources {
    ghost use Rattle.larch_flat_sources.specs.Sources.{Table};

    ghost Value = { Table };

    ghost use Rattle.std.specs.Coded.{codes};
    ghost use Rattle.larch_raw.specs.RawCode.{coded_raw_tree};

    ghost coded = { Prim.hlevel (codes, coded_raw_tree) };

    ghost view = { λ sources. sources.texts.entries };
}

impl Sources {
    /// No files. It takes no memory.
    pub fn new(alloc: Global) -> Sources
        ensures { result ≡ [] }
    {
        Sources {
            texts: IndexMap::new(alloc),
        }
    }

    /// Says what the text of the file of a name says. A file that is there keeps its number. Where memory runs out
    /// nothing changes.
    pub fn insert(&mut self, name: Name, text: Result<RawTrait, Fault>) -> Result<(), Memory>
        ensures table { OnOk result (self.new ≡ put_text self.old name text) }
        ensures files { OnOk result ((m : List ℕ)
            → files_in self.new m ≡ cond (bytes_eq name m) (Some text) (files_in self.old m)) }
        ensures err { OnErr result (self.new ≡ self.old) }
    {
        self.texts.insert(name, text)?;
        Ok(())
    }

    /// How many files there are. It takes no memory.
    pub fn len(&self) -> usize
        ensures len { result ≡ length self.now }
        ensures apart { AreApart self.now }
    {
        self.texts.len()
    }

    /// The number of the file of a name. It takes no memory, and its time doesn't depend on the number of files.
    pub fn number_of(&self, name: &Name) -> Option<usize>
        ensures place { result ≡ position (bytes_eq name.now) (names_in self.now) }
        ensures there { is_some result ≡ is_there (files_in self.now) name.now }
        ensures within { IfSome result (λ number. number < length self.now) }
        ensures name { IfSome result (λ number. name_at self.now number ≡ name.now) }
    {
        self.texts.get_index_of(name)
    }

    /// The name of the file with a number. It takes no memory.
    pub fn name(&self, number: usize) -> &Name
        requires { number < length self.now }
        ensures { result.now ≡ name_at self.now number }
    {
        let (name, _) = self.texts.get_index(number).unwrap();
        name
    }

    /// What the text of the file with a number says. It takes no memory.
    pub fn text(&self, number: usize) -> &Result<RawTrait, Fault>
        requires { number < length self.now }
        ensures { files_in self.now (name_at self.now number) ≡ Some result.now }
    {
        let (_, text) = self.texts.get_index(number).unwrap();
        text
    }
}
