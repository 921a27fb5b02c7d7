ghost use Rattle.std.specs.Prelude.{◌≡◌, ◌++◌, ◌∷◌, [], Contains, IfSome, OnOk, OnErr};
ghost use Rattle.larch_rewrite_step.specs.Encoding.{AreOfStore};
ghost use Rattle.larch_store.specs.Numbered.{term_of};
ghost use Rattle.larch_store.specs.Stored.{Belongs};

use indexmap::IndexMap;
use larch_base::Memory;
use larch_certificate::Coded;
use larch_store::{Shared, Store};
use std::alloc::Global;
use std::marker::Model;

/// A shared term, and how lines write it.
#[derive(Drop)]
pub struct Encoding {
    pub term: Shared,
    pub coded: Coded,
}

/// How lines write shared terms, found by the numbers of the terms. Contracts see the terms with what is written, as a
/// list.
#[derive(Drop)]
pub struct Encodings {
    kept: Vec<Encoding>,
    slots: IndexMap<u64, usize>,
}

impl Model for Encodings {
    ghost use Rattle.std.specs.Prelude.{List};
    ghost use Rattle.larch_rewrite_step.specs.declared.encoding.Encoding.{Encoding};

    ghost Value = { List Encoding };

    ghost use Rattle.std.specs.Coded.{codes};
    ghost use Rattle.larch_certificate.specs.CodedCode.{coded_coded_tree};
    ghost use Rattle.larch_store.specs.NumberedCode.{coded_numbered};

    ghost coded = { Prim.hlevel (codes, coded_numbered, coded_coded_tree) };

    ghost view = { λ all. all.kept.items };
}

impl Encodings {
    /// Nothing is written yet. It takes no memory.
    pub fn new(alloc: Global) -> Encodings
        ensures { result ≡ [] }
    {
        Encodings {
            kept: Vec::new(alloc),
            slots: IndexMap::new(alloc),
        }
    }

    /// Where its memory comes from.
    pub fn allocator(&self) -> Global {
        *self.kept.allocator()
    }

    // How lines write a term, if that is kept.
    pub(crate) fn find<'a>(&'a self, store: &Store, term: &Shared) -> Option<&'a Encoding>
        requires term { Belongs store.now term.now }
        requires encodings { AreOfStore store.now self.now }
        ensures { IfSome result (λ k. Contains self.now k.now × (term_of k.now.term ≡ term_of term.now)) }
    {
        let slot = *self.slots.get(&store.number(term))?;
        let encoding = self.kept.get(slot)?;
        if store.same(&encoding.term, term) {
            return Some(encoding);
        }
        None
    }

    // Keeps how lines write a term. Where memory runs out nothing changes.
    pub(crate) fn keep(&mut self, store: &Store, term: &Shared, coded: &Coded) -> Result<(), Memory>
        ensures ok { OnOk result (self.new ≡ self.old ++ record { term = term.now; coded = coded.now } ∷ []) }
        ensures err { OnErr result (self.new ≡ self.old) }
    {
        let term = term.copy()?;
        let coded = coded.copy()?;
        self.slots.insert(store.number(&term), self.kept.len())?;
        self.kept.push(Encoding { term, coded })?;
        Ok(())
    }
}
